// Answers entered as records: asked of a store, and laid into lent words as a watch file takes them.
#![tactic(auto)]

ghost use Rattle.std.specs.Prelude.{◌≡◌};
ghost use Rattle.entered.specs.Entered.{refusal_beside, words_for, RecordedBy};

use block::Store;
use handed::WORDS;
use told::Refusal;
use watchfile::Record;

// A record as words.
pub type Words = [u32; WORDS];

// Why there is no record where the question was not refused: a figure does not fit its field, or there is no such kind.
const UNFIT: Refusal = Refusal {
    number: 16,
    channel: 0,
    minute: 0,
};

// Lays the record of an entry into the words; or, where there is none, says why and leaves them.
fn lay(words: &mut Words, entry: Option<Record>, refusal: Refusal) -> Refusal
    ensures { (result ≡ refusal_beside entry refusal) × (words.new ≡ words_for entry words.old) }
{
    match entry {
        Some(r) => {
            *words = handed::words(r);
            told::NONE
        }
        None => {
            if refusal.number == 0 {
                return UNFIT;
            }
            refusal
        }
    }
}

// Asks the question of a kind, 1 to 4, and lays its record into the lent words; or the question's refusal, or 16, and the words stay.
pub fn record(store: &Store, kind: u32, minute: u32, words: &mut Words) -> Refusal
    ensures { RecordedBy kind store.now minute words.old words.new result × (store.exit.now ≡ store.entry.now) }
{
    match kind {
        1 => {
            let a = station::pressure(store, minute);
            lay(
                words,
                desk::pressure_record(minute, a),
                told::pressure_told(a).refusal,
            )
        }
        2 => {
            let a = station::tendency(store, minute);
            lay(
                words,
                desk::tendency_record(minute, a),
                told::tendency_told(a).refusal,
            )
        }
        3 => {
            let a = station::wind(store, minute);
            lay(
                words,
                desk::wind_record(minute, a),
                told::wind_told(a).refusal,
            )
        }
        4 => {
            let a = station::humidity(store, minute);
            lay(
                words,
                desk::humidity_record(minute, a),
                told::humidity_told(a).refusal,
            )
        }
        _ => UNFIT,
    }
}
