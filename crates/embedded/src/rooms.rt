// Numbers handed over in lists: a record's amounts, an answer's numbers.
ghost use Rattle.std.specs.Prelude.{[], ◌∷◌, ◌≡◌, length};
ghost use Rattle.desk.specs.Answers.{refusal_in, given_in};
ghost use Rattle.records.specs.LineNumbers.{numbers_of_line};
ghost use Rattle.embedded.specs.Records.{record_of};

use desk::{Answer, Kinds, Outcome, Record};

pub(crate) fn record_of(serial: u16, code: u8, named: u8, account: u16, amounts: &[u64]) -> Record
    requires { length amounts.now ≡ 6 }
    ensures { result ≡ record_of serial code named account amounts.now }
{
    let kinds = Kinds {
        cash: amounts[0],
        deposits: amounts[1],
        guarantees: amounts[2],
        securities: amounts[3],
    };
    Record {
        serial,
        code,
        named,
        account,
        kinds,
        pledged: amounts[4],
        margin: amounts[5],
    }
}

// A record with no amounts.
pub(crate) fn bare_record(serial: u16, code: u8, named: u8, account: u16) -> Record
    ensures { result ≡ record_of serial code named account [] }
{
    let kinds = Kinds {
        cash: 0,
        deposits: 0,
        guarantees: 0,
        securities: 0,
    };
    Record {
        serial,
        code,
        named,
        account,
        kinds,
        pledged: 0,
        margin: 0,
    }
}

pub(crate) fn refusal_in(outcome: Outcome) -> u8
    ensures { result ≡ refusal_in outcome }
{
    match outcome {
        Outcome::Refused(n) => n,
        _ => 0,
    }
}

fn given_in(outcome: Outcome) -> u16
    ensures { result ≡ given_in outcome }
{
    match outcome {
        Outcome::Opened(n) => n,
        _ => 0,
    }
}

#[tactic(auto, unfolding(records::specs::LineNumbers::numbers_of_line))]
pub(crate) fn put_answer(answer: &mut [u16], a: Answer)
    requires { length answer.old ≡ 5 }
    ensures { answer.new ≡ numbers_of_line a }
{
    answer.copy_from_slice(&[
        a.serial,
        u16::from(a.code),
        a.account,
        u16::from(refusal_in(a.outcome)),
        given_in(a.outcome),
    ]);
}
