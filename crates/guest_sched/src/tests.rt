use crate::chooser::Chooser;
use rand_core::utils::NextWord;
use rand_pcg::Lcg64Xsh32;

/// The six words that PCG's reference implementation prints for seed 42 in stream 54.
const WORDS: [u32; 6] = [
    0xa15c02b7, 0x7b47f409, 0xba1d3330, 0x83d2f293, 0xbfa4784b, 0xcbed606e,
];

#[test]
fn first_words_of_seed_42(rt: HostRuntime) {
    let mut words = Lcg64Xsh32::new(42, 54);
    for expected in &WORDS {
        assert_eq!(rt; words.next_word(), *expected);
    }
}

#[test]
fn picks_by_the_word_modulo_the_length(rt: HostRuntime) {
    let mut of_eight = Chooser::new(42);
    let mut of_five = Chooser::new(42);
    for word in &WORDS {
        assert_eq!(rt;
            of_eight.pick(&[0, 1, 2, 3, 4, 5, 6, 7]),
            *word as usize % 8
        );
        assert_eq!(rt; of_five.pick(&[1, 2, 4, 5, 7]), *word as usize % 5);
    }
}

/// A word is drawn also where there is no choice.
#[test]
fn one_entry_takes_a_word(rt: HostRuntime) {
    let mut chooser = Chooser::new(42);
    assert_eq!(rt; chooser.pick(&[3]), 0);
    assert_eq!(rt; chooser.pick(&[0, 1, 2, 3, 4, 5, 6]), WORDS[1] as usize % 7);
}
