// An answer as numbers: the refusal's number, or 0, and the values.
ghost use Rattle.std.specs.Prelude.{◌≡◌};
ghost use Rattle.systems.specs.Refusals.{outcome};
ghost use Rattle.ferghulta.specs.Answers.{in_parts, refusal_answer};

use systems::Refusal;

// 0 and the values, or the refusal's number and the values that stand for none.
pub fn in_parts<T: Copy>(found: Result<T, Refusal>, nothing: T) -> (u32, T)
    ensures { result ≡ in_parts (outcome found) nothing }
{
    match found {
        Ok(values) => (0, values),
        Err(r) => (r.number(), nothing),
    }
}

// The answer of a call that has no values.
pub fn refusal_of(done: Result<(), Refusal>) -> u32
    ensures { result ≡ refusal_answer (outcome done) }
{
    let (refusal, ()) = in_parts(done, ());
    refusal
}
