//! The words that begin an instruction.
ghost use Rattle.std.specs.Prelude.{◌≡◌, bytes_eq, option_map, IfSome, drop, length};
ghost use Rattle.rv32_asm.specs.Names.{branch_name_of, load_name_of, store_name_of, immediate_name_of, register_operation_name_of, amo_name_of, order_of, name_of, atomic_name_of, mnemonic_of, atomic_of, bits_of};

use rv32_decode::instr::{AluOp, AmoOp, BranchOp, ImmOp, LoadOp, StoreOp};

/// What an instruction that isn't atomic begins with.
#[derive(Clone, Copy, Debug, PartialEq, Eq)]
pub enum Mnemonic {
    Lui,
    Auipc,
    Jal,
    Jalr,
    Branch(BranchOp),
    Load(LoadOp),
    Store(StoreOp),
    Immediate(ImmOp),
    Register(AluOp),
    Fence,
    Ecall,
    Ebreak,
    LoadImmediate,
    Jump,
    LoadAddress,
}

/// What an atomic instruction begins with, up to its bits aq and rl.
#[derive(Clone, Copy, Debug, PartialEq, Eq)]
pub enum Atomic {
    LoadReserved,
    StoreConditional,
    Amo(AmoOp),
}

static MNEMONICS: [Mnemonic; 51] = [
    Mnemonic::Lui,
    Mnemonic::Auipc,
    Mnemonic::Jal,
    Mnemonic::Jalr,
    Mnemonic::Branch(BranchOp::Beq),
    Mnemonic::Branch(BranchOp::Bne),
    Mnemonic::Branch(BranchOp::Blt),
    Mnemonic::Branch(BranchOp::Bge),
    Mnemonic::Branch(BranchOp::Bltu),
    Mnemonic::Branch(BranchOp::Bgeu),
    Mnemonic::Load(LoadOp::Lb),
    Mnemonic::Load(LoadOp::Lh),
    Mnemonic::Load(LoadOp::Lw),
    Mnemonic::Load(LoadOp::Lbu),
    Mnemonic::Load(LoadOp::Lhu),
    Mnemonic::Store(StoreOp::Sb),
    Mnemonic::Store(StoreOp::Sh),
    Mnemonic::Store(StoreOp::Sw),
    Mnemonic::Immediate(ImmOp::Addi),
    Mnemonic::Immediate(ImmOp::Slti),
    Mnemonic::Immediate(ImmOp::Sltiu),
    Mnemonic::Immediate(ImmOp::Xori),
    Mnemonic::Immediate(ImmOp::Ori),
    Mnemonic::Immediate(ImmOp::Andi),
    Mnemonic::Immediate(ImmOp::Slli),
    Mnemonic::Immediate(ImmOp::Srli),
    Mnemonic::Immediate(ImmOp::Srai),
    Mnemonic::Register(AluOp::Add),
    Mnemonic::Register(AluOp::Sll),
    Mnemonic::Register(AluOp::Slt),
    Mnemonic::Register(AluOp::Sltu),
    Mnemonic::Register(AluOp::Xor),
    Mnemonic::Register(AluOp::Srl),
    Mnemonic::Register(AluOp::Or),
    Mnemonic::Register(AluOp::And),
    Mnemonic::Register(AluOp::Sub),
    Mnemonic::Register(AluOp::Sra),
    Mnemonic::Register(AluOp::Mul),
    Mnemonic::Register(AluOp::Mulh),
    Mnemonic::Register(AluOp::Mulhsu),
    Mnemonic::Register(AluOp::Mulhu),
    Mnemonic::Register(AluOp::Div),
    Mnemonic::Register(AluOp::Divu),
    Mnemonic::Register(AluOp::Rem),
    Mnemonic::Register(AluOp::Remu),
    Mnemonic::Fence,
    Mnemonic::Ecall,
    Mnemonic::Ebreak,
    Mnemonic::LoadImmediate,
    Mnemonic::Jump,
    Mnemonic::LoadAddress,
];

static ATOMICS: [Atomic; 11] = [
    Atomic::LoadReserved,
    Atomic::StoreConditional,
    Atomic::Amo(AmoOp::Swap),
    Atomic::Amo(AmoOp::Add),
    Atomic::Amo(AmoOp::Xor),
    Atomic::Amo(AmoOp::And),
    Atomic::Amo(AmoOp::Or),
    Atomic::Amo(AmoOp::Min),
    Atomic::Amo(AmoOp::Max),
    Atomic::Amo(AmoOp::Minu),
    Atomic::Amo(AmoOp::Maxu),
];

/// The name of a conditional branch.
pub fn branch_name(op: BranchOp) -> &'static str
    ensures { result.now ≡ branch_name_of op }
{
    match op {
        BranchOp::Beq => "beq",
        BranchOp::Bne => "bne",
        BranchOp::Blt => "blt",
        BranchOp::Bge => "bge",
        BranchOp::Bltu => "bltu",
        BranchOp::Bgeu => "bgeu",
    }
}

/// The name of a load.
pub fn load_name(op: LoadOp) -> &'static str
    ensures { result.now ≡ load_name_of op }
{
    match op {
        LoadOp::Lb => "lb",
        LoadOp::Lh => "lh",
        LoadOp::Lw => "lw",
        LoadOp::Lbu => "lbu",
        LoadOp::Lhu => "lhu",
    }
}

/// The name of a store.
pub fn store_name(op: StoreOp) -> &'static str
    ensures { result.now ≡ store_name_of op }
{
    match op {
        StoreOp::Sb => "sb",
        StoreOp::Sh => "sh",
        StoreOp::Sw => "sw",
    }
}

/// The name of an operation of a register and an immediate.
pub fn immediate_name(op: ImmOp) -> &'static str
    ensures { result.now ≡ immediate_name_of op }
{
    match op {
        ImmOp::Addi => "addi",
        ImmOp::Slti => "slti",
        ImmOp::Sltiu => "sltiu",
        ImmOp::Xori => "xori",
        ImmOp::Ori => "ori",
        ImmOp::Andi => "andi",
        ImmOp::Slli => "slli",
        ImmOp::Srli => "srli",
        ImmOp::Srai => "srai",
    }
}

/// The name of an operation of two registers.
pub fn register_operation_name(op: AluOp) -> &'static str
    ensures { result.now ≡ register_operation_name_of op }
{
    match op {
        AluOp::Add => "add",
        AluOp::Sll => "sll",
        AluOp::Slt => "slt",
        AluOp::Sltu => "sltu",
        AluOp::Xor => "xor",
        AluOp::Srl => "srl",
        AluOp::Or => "or",
        AluOp::And => "and",
        AluOp::Sub => "sub",
        AluOp::Sra => "sra",
        AluOp::Mul => "mul",
        AluOp::Mulh => "mulh",
        AluOp::Mulhsu => "mulhsu",
        AluOp::Mulhu => "mulhu",
        AluOp::Div => "div",
        AluOp::Divu => "divu",
        AluOp::Rem => "rem",
        AluOp::Remu => "remu",
    }
}

/// The name of an atomic memory operation, up to its bits aq and rl.
pub fn amo_name(op: AmoOp) -> &'static str
    ensures { result.now ≡ amo_name_of op }
{
    match op {
        AmoOp::Swap => "amoswap.w",
        AmoOp::Add => "amoadd.w",
        AmoOp::Xor => "amoxor.w",
        AmoOp::And => "amoand.w",
        AmoOp::Or => "amoor.w",
        AmoOp::Min => "amomin.w",
        AmoOp::Max => "amomax.w",
        AmoOp::Minu => "amominu.w",
        AmoOp::Maxu => "amomaxu.w",
    }
}

/// What stands behind an atomic operation's name: its bits aq and rl.
pub fn order(aq: bool, rl: bool) -> &'static str
    ensures { result.now ≡ order_of aq rl }
{
    match (aq, rl) {
        (false, false) => "",
        (true, false) => ".aq",
        (false, true) => ".rl",
        (true, true) => ".aqrl",
    }
}

fn name(mnemonic: Mnemonic) -> &'static str
    ensures { result.now ≡ name_of mnemonic }
{
    match mnemonic {
        Mnemonic::Lui => "lui",
        Mnemonic::Auipc => "auipc",
        Mnemonic::Jal => "jal",
        Mnemonic::Jalr => "jalr",
        Mnemonic::Branch(op) => branch_name(op),
        Mnemonic::Load(op) => load_name(op),
        Mnemonic::Store(op) => store_name(op),
        Mnemonic::Immediate(op) => immediate_name(op),
        Mnemonic::Register(op) => register_operation_name(op),
        Mnemonic::Fence => "fence",
        Mnemonic::Ecall => "ecall",
        Mnemonic::Ebreak => "ebreak",
        Mnemonic::LoadImmediate => "li",
        Mnemonic::Jump => "j",
        Mnemonic::LoadAddress => "la",
    }
}

/// The mnemonic that a word is.
#[tactic(auto, unfolding(crate::specs::Names::mnemonic_of))]
pub(crate) fn mnemonic_named(word: &[u8]) -> Option<Mnemonic>
    ensures { result ≡ mnemonic_of word.now }
{
    MNEMONICS
        .iter()
        .copied()
        .find(|m| name(*m).as_bytes() == word)
}

fn atomic_name(atomic: Atomic) -> &'static str
    ensures { result.now ≡ atomic_name_of atomic }
{
    match atomic {
        Atomic::LoadReserved => "lr.w",
        Atomic::StoreConditional => "sc.w",
        Atomic::Amo(op) => amo_name(op),
    }
}

#[tactic(auto, unfolding(crate::specs::Names::atomic_of))]
fn atomic_operation(word: &[u8]) -> Option<Atomic>
    ensures { result ≡ atomic_of word.now }
{
    ATOMICS
        .iter()
        .copied()
        .find(|atomic| word.starts_with(atomic_name(*atomic).as_bytes()))
}

/// The atomic operation whose name a word begins with, and what stands behind the name.
pub(crate) fn atomic_named(word: &[u8]) -> Option<(Atomic, &[u8])>
    ensures value { option_map (λ x. x.0) result ≡ atomic_of word.now }
    ensures rest { IfSome result (λ x. x.1.now ≡ drop (length (atomic_name_of x.0)) word.now) }
{
    let atomic = atomic_operation(word)?;
    let name = atomic_name(atomic);
    Some((atomic, &word[name.len()..]))
}

/// The bits aq and rl that are written so behind the name.
#[tactic(auto, unfolding(crate::specs::Names::bits_of))]
pub(crate) fn bits_named(word: &[u8]) -> Option<(bool, bool)>
    ensures { result ≡ bits_of word.now }
{
    match word {
        b"" => Some((false, false)),
        b".aq" => Some((true, false)),
        b".rl" => Some((false, true)),
        b".aqrl" => Some((true, true)),
        _ => None,
    }
}
