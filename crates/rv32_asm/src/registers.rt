ghost use Rattle.std.specs.Prelude.{◌≡◌, ◌<◌, IfSome, [], position, bytes_eq, slice_index_or};
ghost use Rattle.rv32_asm.specs.Names.{register_of, numbered_names, calling_names};

static NUMBERS: [u8; 32] = [
    0, 1, 2, 3, 4, 5, 6, 7, 8, 9, 10, 11, 12, 13, 14, 15, 16, 17, 18, 19, 20, 21, 22, 23, 24, 25,
    26, 27, 28, 29, 30, 31,
];

/// A register's name by its number.
fn numbered_name(number: u8) -> &'static str
    requires { number < 32 }
    ensures { result.now ≡ slice_index_or numbered_names number [] }
{
    match number {
        0 => "x0",
        1 => "x1",
        2 => "x2",
        3 => "x3",
        4 => "x4",
        5 => "x5",
        6 => "x6",
        7 => "x7",
        8 => "x8",
        9 => "x9",
        10 => "x10",
        11 => "x11",
        12 => "x12",
        13 => "x13",
        14 => "x14",
        15 => "x15",
        16 => "x16",
        17 => "x17",
        18 => "x18",
        19 => "x19",
        20 => "x20",
        21 => "x21",
        22 => "x22",
        23 => "x23",
        24 => "x24",
        25 => "x25",
        26 => "x26",
        27 => "x27",
        28 => "x28",
        29 => "x29",
        30 => "x30",
        _ => "x31",
    }
}

/// A register's name by the calling convention.
fn calling_name(number: u8) -> &'static str
    requires { number < 32 }
    ensures { result.now ≡ slice_index_or calling_names number [] }
{
    match number {
        0 => "zero",
        1 => "ra",
        2 => "sp",
        3 => "gp",
        4 => "tp",
        5 => "t0",
        6 => "t1",
        7 => "t2",
        8 => "s0",
        9 => "s1",
        10 => "a0",
        11 => "a1",
        12 => "a2",
        13 => "a3",
        14 => "a4",
        15 => "a5",
        16 => "a6",
        17 => "a7",
        18 => "s2",
        19 => "s3",
        20 => "s4",
        21 => "s5",
        22 => "s6",
        23 => "s7",
        24 => "s8",
        25 => "s9",
        26 => "s10",
        27 => "s11",
        28 => "t3",
        29 => "t4",
        30 => "t5",
        _ => "t6",
    }
}

fn numbered(word: &[u8]) -> Option<usize>
    ensures value { result ≡ position (λ number. bytes_eq (slice_index_or numbered_names number []) word.now) NUMBERS }
    ensures below { IfSome result (λ number. number < 32) }
{
    NUMBERS
        .iter()
        .position(|number| numbered_name(*number).as_bytes() == word)
}

fn calling(word: &[u8]) -> Option<usize>
    ensures value { result ≡ position (λ number. bytes_eq (slice_index_or calling_names number []) word.now) NUMBERS }
    ensures below { IfSome result (λ number. number < 32) }
{
    NUMBERS
        .iter()
        .position(|number| calling_name(*number).as_bytes() == word)
}

/// The register of a name.
pub(crate) fn register(word: &[u8]) -> Option<u8>
    ensures value { result ≡ register_of word.now }
    ensures below { IfSome result (λ number. number < 32) }
{
    match numbered(word) {
        Some(number) => Some(number as u8),
        None => Some(calling(word)? as u8),
    }
}
