//! The forms of a line that makes a request.
ghost use Rattle.std.specs.Prelude.{◌≡◌, ◌<◌, [], ◌∷◌, length, IfSome, IfNone};
ghost use Rattle.std.specs.Option.{option_copied};
ghost use Rattle.uda_grammar.specs.Amounts.{most_written};
ghost use Rattle.uda_grammar.specs.Parts.{words_of, parts_behind};
ghost use Rattle.uda_grammar.specs.Forms.{only_unit, transfer_form, online_of, fill_of, statement_of};

use crate::cut::cut;
use crate::number::{byte, number, unit};
use crate::statement::{Measure, Statement};
use crate::transfer::TransferNumbers;
use crate::verb::Verb;
use uda_disk::TRANSFER_LIMIT;

// The separator between the words of a line.
const SPACE: u8 = b' ';

/// Returns the most that a line can write, in this measure: as much as one command.
pub(crate) fn most_written(measure: Measure) -> u32
    ensures most { result ≡ most_written measure }
{
    match measure {
        Measure::Blocks => TRANSFER_LIMIT / 512,
        Measure::Bytes => TRANSFER_LIMIT,
    }
}

// Returns the word, if there is only one.
fn only_word(words: &[u8]) -> Option<&[u8]>
    ensures only { IfSome result (λ word. words_of words.now ≡ word.now ∷ []) }
    ensures more { IfNone result (1 < length (words_of words.now)) }
{
    match cut(words, SPACE) {
        (word, None) => Some(word),
        (_, Some(_)) => None,
    }
}

// The words of a transfer.
#[derive(Clone, Copy)]
struct Fields<'a> {
    unit: &'a [u8],
    lbn: &'a [u8],
    count: &'a [u8],
    // the words after them
    rest: Option<&'a [u8]>,
}

impl<'a> Fields<'a> {
    // Returns the first three words and the rest.
    fn of_words(words: &'a [u8]) -> Option<Fields<'a>>
        ensures words { IfSome result (λ f. words_of words.now
            ≡ f.unit.now ∷ f.lbn.now ∷ f.count.now ∷ parts_behind 32 (option_copied f.rest)) }
        ensures fewer { IfNone result (length (words_of words.now) < 3) }
    {
        let (unit, rest) = cut(words, SPACE);
        let (lbn, rest) = cut(rest?, SPACE);
        let (count, rest) = cut(rest?, SPACE);
        Some(Fields {
            unit,
            lbn,
            count,
            rest,
        })
    }

    // Returns the numbers of the three words, if the count is at most `most`.
    fn transfer(&self, most: u32) -> Option<TransferNumbers>
        ensures transfer { result
            ≡ transfer_form most (self.now.unit.now ∷ self.now.lbn.now ∷ self.now.count.now ∷ []) }
    {
        Some(TransferNumbers {
            unit: unit(self.unit)?,
            lbn: number(self.lbn, u32::MAX)?,
            count: number(self.count, most)?,
        })
    }
}

// Reads `U`.
fn unit_alone(words: &[u8]) -> Option<u16>
    ensures unit { result ≡ only_unit (words_of words.now) }
{
    unit(only_word(words)?)
}

// Reads `U L N`, with a count of at most `most`.
#[tactic(auto, using(crate::proofs::Fields::transfer_form_more, crate::proofs::Cutting::behind_nonempty))]
fn transfer_alone(words: &[u8], most: u32) -> Option<TransferNumbers>
    ensures transfer { result ≡ transfer_form most (words_of words.now) }
{
    let fields = Fields::of_words(words)?;
    match fields.rest {
        None => fields.transfer(most),
        Some(_) => None,
    }
}

// Reads `U` and `U protect`.
fn online(words: &[u8]) -> Option<Statement>
    ensures online { result ≡ online_of (words_of words.now) }
{
    let (word, rest) = cut(words, SPACE);
    let protect = match rest {
        None => false,
        Some(rest) => match only_word(rest)? {
            b"protect" => true,
            _ => return None,
        },
    };
    Some(Statement::Online {
        unit: unit(word)?,
        protect,
    })
}

// Reads `U L N XX`.
fn fill(words: &[u8]) -> Option<Statement>
    ensures fill { result ≡ fill_of (words_of words.now) }
{
    let fields = Fields::of_words(words)?;
    let byte = byte(only_word(fields.rest?)?)?;
    let TransferNumbers { unit, lbn, count } = fields.transfer(most_written(Measure::Blocks))?;
    Some(Statement::Fill {
        unit,
        lbn,
        count,
        byte,
    })
}

/// Returns the statement of a line, if it has one of the forms.
pub(crate) fn statement_in(line: &[u8]) -> Option<Statement>
    ensures statement { result ≡ statement_of (words_of line.now) }
{
    let (verb, words) = cut(line, SPACE);
    let words = words?;
    Some(match Verb::of_word(verb)? {
        Verb::Online => online(words)?,
        Verb::Available => Statement::Available {
            unit: unit_alone(words)?,
        },
        Verb::Status => Statement::Status {
            unit: unit_alone(words)?,
        },
        Verb::Read(measure) => {
            let TransferNumbers { unit, lbn, count } = transfer_alone(words, u32::MAX)?;
            let amount = measure.amount(count);
            Statement::Read { unit, lbn, amount }
        }
        Verb::Access(measure) => {
            let TransferNumbers { unit, lbn, count } = transfer_alone(words, u32::MAX)?;
            let amount = measure.amount(count);
            Statement::Access { unit, lbn, amount }
        }
        Verb::Erase(measure) => {
            let TransferNumbers { unit, lbn, count } = transfer_alone(words, u32::MAX)?;
            let amount = measure.amount(count);
            Statement::Erase { unit, lbn, amount }
        }
        Verb::Write(measure) => {
            let TransferNumbers { unit, lbn, count } = transfer_alone(
                words,
                most_written(measure),
            )?;
            let amount = measure.amount(count);
            Statement::Write { unit, lbn, amount }
        }
        Verb::Fill => fill(words)?,
    })
}
