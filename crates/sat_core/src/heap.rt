//! Variables by their heat. Nothing is promised of it: the search looks for itself at what it is given.
use clause_store::Memory;
use std::alloc::Global;

const NOWHERE: u32 = 0xffff_ffff;

const MOST: usize = 0x7fff_ffff;

const HOTTEST: u64 = 0x1000_0000_0000_0000;

/// A heap of variables, the hottest on top.
#[derive(Drop)]
pub struct Heap {
    order: Vec<u32>,
    spots: Vec<u32>,
    heat: Vec<u64>,
    warmth: u64,
}

impl Heap {
    /// No variable.
    pub fn new(alloc: Global, vars: usize) -> Result<Heap, Memory> {
        let order = Vec::with_capacity(alloc, vars)?;
        let spots = vec![in alloc; NOWHERE; vars]?;
        let heat = vec![in alloc; 0; vars]?;
        Ok(Heap {
            order,
            spots,
            heat,
            warmth: 1024,
        })
    }

    /// Puts a variable in, if it isn't there.
    pub fn insert(&mut self, var: usize) {
        if MOST <= var || MOST <= self.order.len() || self.spot_of(var as u32) != NOWHERE {
            return;
        }
        let spot = self.order.len() as u32;
        let _ = self.order.push(var as u32);
        self.place(spot, var as u32);
        self.sift_up(spot);
    }

    /// Takes the hottest variable out.
    pub fn pop(&mut self) -> Option<usize> {
        let last = self.order.pop()?;
        self.forget(last);
        if self.order.is_empty() {
            return Some(last as usize);
        }
        let top = self.var_at(0);
        self.forget(top);
        self.place(0, last);
        self.sift_down();
        Some(top as usize)
    }

    /// Makes a variable hotter.
    pub fn warm(&mut self, var: usize) {
        if MOST <= var || self.heat.len() <= var {
            return;
        }
        let heat = self.heat[var].saturating_add(self.warmth);
        self.heat[var] = heat;
        if HOTTEST < heat {
            self.cool_all();
        }
        let spot = self.spot_of(var as u32);
        if spot != NOWHERE {
            self.sift_up(spot);
        }
    }

    /// Makes what was warmed before count less.
    pub fn cool(&mut self) {
        self.warmth = self.warmth.saturating_add(self.warmth / 19);
    }

    fn cool_all(&mut self) {
        for heat in self.heat.iter_mut() {
            *heat /= 0x4000_0000;
        }
        self.warmth = self.warmth / 0x4000_0000 + 1;
    }

    fn forget(&mut self, var: u32) {
        if (var as usize) < self.spots.len() {
            self.spots[var as usize] = NOWHERE;
        }
    }

    fn place(&mut self, spot: u32, var: u32) {
        if (spot as usize) < self.order.len() {
            self.order[spot as usize] = var;
        }
        if (var as usize) < self.spots.len() {
            self.spots[var as usize] = spot;
        }
    }

    fn var_at(&self, spot: u32) -> u32 {
        match self.order.get(spot as usize) {
            Some(var) => *var,
            None => NOWHERE,
        }
    }

    fn spot_of(&self, var: u32) -> u32 {
        match self.spots.get(var as usize) {
            Some(spot) => *spot,
            None => NOWHERE,
        }
    }

    fn heat_at(&self, spot: u32) -> u64 {
        match self.heat.get(self.var_at(spot) as usize) {
            Some(heat) => *heat,
            None => 0,
        }
    }

    fn swap(&mut self, one: u32, other: u32) {
        let upper = self.var_at(one);
        let lower = self.var_at(other);
        self.place(one, lower);
        self.place(other, upper);
    }

    // A heap of 2^31 variables has 32 levels.
    fn sift_up(&mut self, from: u32) {
        let mut spot = from;
        for _level in 0..64 {
            if spot == 0 {
                return;
            }
            let parent = (spot - 1) / 2;
            if self.heat_at(spot) <= self.heat_at(parent) {
                return;
            }
            self.swap(spot, parent);
            spot = parent;
        }
    }

    fn sift_down(&mut self) {
        let mut spot = 0;
        for _level in 0..64 {
            let child = self.hotter_child(spot);
            if self.heat_at(child) <= self.heat_at(spot) {
                return;
            }
            self.swap(spot, child);
            spot = child;
        }
    }

    fn hotter_child(&self, spot: u32) -> u32 {
        if 0x3fff_ffff <= spot {
            return NOWHERE;
        }
        let left = 2 * spot + 1;
        if self.heat_at(left) < self.heat_at(left + 1) {
            left + 1
        } else {
            left
        }
    }
}
