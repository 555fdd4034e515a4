// Answers as numbers, for the crates that export calls: a yes or no, any answer's number, and a full check's.
ghost use Rattle.std.specs.Prelude.{◌≡◌};
ghost use Rattle.formats.specs.Refusals.{number_by};
ghost use Rattle.capi.specs.numbers.Numbers.{bit_of, CheckNumber};

use formats::refusals::HasNumber;

// 1 for yes, 0 for no.
pub fn bit(b: bool) -> u32
    ensures { result ≡ bit_of b }
{
    u32::from(b)
}

// The number of an answer: 0 where the call is accepted, else its refusal's.
pub fn number<T: Copy, E: HasNumber>(answer: Result<T, E>) -> u32
    ensures { result ≡ number_by E.number_in answer }
{
    match answer {
        Ok(_) => 0,
        Err(refusal) => refusal.number_of() as u32,
    }
}

// The number of a full check's answer; whether it is yes goes to `yes`.
pub fn check_number<E: HasNumber>(answer: Result<bool, E>, yes: &mut u32) -> u32
    ensures { CheckNumber E.number_in answer yes.old result yes.new }
{
    match answer {
        Ok(same) => {
            *yes = bit(same);
            0
        }
        Err(refused) => refused.number_of() as u32,
    }
}
