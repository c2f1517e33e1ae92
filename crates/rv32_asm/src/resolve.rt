//! What instructions become once the names are known.
ghost use Rattle.std.specs.Prelude.{◌≡◌, ◌<◌, ◌≤◌, ◌^◌, All, IfOk, IfSome, map, find, bytes_eq, option_map};
ghost use Rattle.rv32_decode.specs.Valid.{IsUpperImmediate, FitsTwelveBits};
ghost use Rattle.rv32_asm.specs.Assembly.{Gives, address_of, offset_to, upper_of, rest_of, address_code, resolved as resolved_of, entry_code};
ghost use Rattle.rv32_asm.specs.Seen.{label_seen, entry_seen, code_of, IsSound, IsSoundLabel, IsSoundEntry, Reaches, instrs_of, AreValid};

use crate::code::Code;
use crate::draft::{Entry, Label};
use crate::fault::AsmFault;
use crate::operands;
use rv32_decode::instr::{ImmOp, Instr};

/// The instructions that one of a text becomes.
#[derive(Clone, Copy, Debug)]
pub(crate) enum Resolved {
    One(Instr),
    Two(Instr, Instr),
}

fn address(labels: &[Label<'_>], name: &[u8]) -> Option<u64>
    requires { All IsSoundLabel labels.now }
    ensures value { result ≡ option_map (λ l. l.address) (find (λ l. bytes_eq l.name.now name.now) labels.now) }
    ensures fits { IfSome result (λ a. a < 2 ^ 63) }
{
    let label = labels.iter().find(|label| label.name == name)?;
    Some(label.address)
}

/// The address of a name.
#[tactic(auto, unfolding(crate::specs::Assembly::address_of))]
fn address_on(labels: &[Label<'_>], line: u64, name: &[u8]) -> Result<u64, AsmFault>
    requires { All IsSoundLabel labels.now }
    ensures value { Gives (λ x. x) result (address_of (map label_seen labels.now) line name.now) }
    ensures fits { IfOk result (λ a. a < 2 ^ 63) }
{
    match address(labels, name) {
        Some(address) => Ok(address),
        None => Err(AsmFault::UnknownName { line }),
    }
}

/// How far a name is from the instruction.
#[tactic(auto, unfolding(crate::specs::Assembly::offset_to))]
fn offset_from(
    labels: &[Label<'_>],
    reach: u32,
    line: u64,
    here: u64,
    name: &[u8],
) -> Result<i32, AsmFault>
    requires labels { All IsSoundLabel labels.now }
    requires reach { reach ≤ 2 ^ 20 }
    requires here { here < 2 ^ 63 }
    ensures value { Gives (λ x. x) result (offset_to (map label_seen labels.now) reach line here name.now) }
    ensures within { IfOk result (Reaches reach) }
{
    let address = address_on(labels, line, name)?;
    match operands::offset(address as i64 - here as i64, reach) {
        Some(offset) => Ok(offset),
        None => Err(AsmFault::BadLine { line }),
    }
}

/// The upper 20 bits of an address, rounded so that the rest has twelve bits with a sign.
fn upper(address: u64) -> u32
    requires { address < 2 ^ 63 }
    ensures value { result ≡ upper_of address }
    ensures valid { IsUpperImmediate result }
{
    ((address + 2048) / 4096 % (1 << 20) * 4096) as u32
}

fn rest(address: u64) -> i32
    requires { address < 2 ^ 63 }
    ensures value { result ≡ rest_of address }
    ensures valid { FitsTwelveBits result }
{
    ((address + 2048) % 4096) as i32 - 2048
}

fn load_address(rd: u8, address: u64) -> Resolved
    requires rd { rd < 32 }
    requires address { address < 2 ^ 63 }
    ensures value { instrs_of result ≡ address_code rd address }
    ensures valid { AreValid result }
{
    let add = Instr::Imm {
        op: ImmOp::Addi,
        rd,
        rs1: rd,
        imm: rest(address),
    };
    let imm = upper(address);
    Resolved::Two(Instr::Lui { rd, imm }, add)
}

/// The instructions that code becomes on a line and at an address.
#[tactic(auto, unfolding(crate::specs::Assembly::resolved))]
fn resolve_code(
    labels: &[Label<'_>],
    line: u64,
    here: u64,
    code: Code<'_>,
) -> Result<Resolved, AsmFault>
    requires labels { All IsSoundLabel labels.now }
    requires here { here < 2 ^ 63 }
    requires code { IsSound (code_of code) }
    ensures value { Gives instrs_of result (resolved_of (map label_seen labels.now) line here (code_of code.entry)) }
    ensures valid { IfOk result AreValid }
{
    match code {
        Code::Whole(i) => Ok(Resolved::One(i)),
        Code::JumpTo { rd, name } => {
            let offset = offset_from(labels, 1 << 20, line, here, name)?;
            Ok(Resolved::One(Instr::Jal { rd, offset }))
        }
        Code::BranchTo { op, rs1, rs2, name } => {
            let offset = offset_from(labels, 1 << 12, line, here, name)?;
            Ok(Resolved::One(Instr::Branch {
                op,
                rs1,
                rs2,
                offset,
            }))
        }
        Code::AddressOf { rd, name } => {
            let address = address_on(labels, line, name)?;
            Ok(load_address(rd, address))
        }
    }
}

/// The instructions of an entry.
#[tactic(auto, unfolding(crate::specs::Assembly::entry_code))]
pub(crate) fn resolve(labels: &[Label<'_>], entry: &Entry<'_>) -> Result<Resolved, AsmFault>
    requires labels { All IsSoundLabel labels.now }
    requires entry { IsSoundEntry entry.now }
    ensures value { Gives instrs_of result (entry_code (map label_seen labels.now) (entry_seen entry.now)) }
    ensures valid { IfOk result AreValid }
{
    match entry.code {
        Some(code) => resolve_code(labels, entry.line, entry.address, code),
        None => Err(AsmFault::BadLine { line: entry.line }),
    }
}
