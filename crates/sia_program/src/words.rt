//! Numbers among the words of a command.
ghost use Rattle.std.specs.Prelude.{◌≡◌};
ghost use Rattle.sia_program.specs.Words.{number_of};

use sia_config::read_decimal;

/// The number that a word's decimal digits write, without a leading zero. It is below 2^64.
#[tactic(auto, unfolding(crate::specs::Words::number_of))]
pub(crate) fn read_number(word: &[u8]) -> Option<u64>
    ensures { result ≡ number_of word.now }
{
    match read_decimal(word) {
        Some(number) => u64::try_from(number).ok(),
        None => None,
    }
}
