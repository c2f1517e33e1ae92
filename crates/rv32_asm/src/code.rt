use rv32_decode::instr::{BranchOp, Instr};

/// An instruction as it stands in a text: whole, or with a name for the place that it goes to or whose
/// address it loads.
#[derive(Clone, Copy, Debug)]
pub(crate) enum Code<'a> {
    Whole(Instr),
    JumpTo {
        rd: u8,
        name: &'a [u8],
    },
    BranchTo {
        op: BranchOp,
        rs1: u8,
        rs2: u8,
        name: &'a [u8],
    },
    AddressOf {
        rd: u8,
        name: &'a [u8],
    },
}

/// A jump's or branch's target: so many bytes on, or a name.
#[derive(Clone, Copy, Debug)]
pub(crate) enum Target<'a> {
    Offset(i32),
    Name(&'a [u8]),
}
