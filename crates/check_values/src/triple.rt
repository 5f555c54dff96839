// Triples by their components, in one line: a literal takes five.
ghost use Rattle.std.specs.Prelude.{◌≡◌};
ghost use Rattle.check_values.specs.Vectors.{codes, signals};

use signals::Signals;
use systems::Codes;

pub fn codes(r: u16, g: u16, b: u16) -> Codes
    ensures { result ≡ codes r g b }
{
    Codes { r, g, b }
}

pub fn signals(r: f32, g: f32, b: f32) -> Signals
    ensures { result ≡ signals r g b }
{
    Signals { r, g, b }
}
