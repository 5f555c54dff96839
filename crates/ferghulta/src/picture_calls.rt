// The calls on a picture. A refused call gives back the picture that it was given.
ghost use Rattle.std.specs.Prelude.{◌≡◌, length};
ghost use Rattle.systems.specs.Refusals.{outcome};
ghost use Rattle.picture.specs.declared.Phase.TheVariants.{Fresh};
ghost use Rattle.picture.specs.Picture.{at, total_bytes, opening, rowing, buffer_after, closing};
ghost use Rattle.ferghulta.specs.Stored.{stored, picture_of, picture_answer, total_answer};

use crate::refusals::in_parts;
use crate::stored_picture::StoredPicture;
use picture::Picture;
use systems::Refusal;

#[repr(C)]
#[derive(Clone, Copy)]
pub struct PictureAnswer {
    pub refusal: u32,
    pub picture: StoredPicture,
}

#[repr(C)]
#[derive(Clone, Copy)]
pub struct TotalAnswer {
    pub refusal: u32,
    pub bytes: u32,
}

impl From<Result<u32, Refusal>> for TotalAnswer {
    ghost from_gives = { λ found answer. answer ≡ total_answer (outcome found) };

    fn from(found: Result<u32, Refusal>) -> TotalAnswer {
        let (refusal, bytes) = in_parts(found, 0);
        TotalAnswer { refusal, bytes }
    }
}

#[unsafe(no_mangle)]
pub extern "C" fn ferghulta_total_bytes(width: u32, height: u32) -> TotalAnswer
    ensures { result ≡ total_answer (total_bytes width height) }
{
    picture::total_bytes(width, height).into()
}

#[unsafe(no_mangle)]
pub extern "C" fn ferghulta_new() -> StoredPicture
    ensures { result ≡ stored (at Fresh 0) }
{
    Picture::new().into()
}

#[unsafe(no_mangle)]
pub extern "C" fn ferghulta_open(
    picture: StoredPicture,
    system: u32,
    width: u32,
    height: u32,
) -> PictureAnswer
    ensures { result ≡ picture_answer picture (opening (picture_of picture) system width height) }
{
    answer(picture, Picture::from(picture).open(system, width, height))
}

#[unsafe(no_mangle)]
pub extern "C" fn ferghulta_row(
    picture: StoredPicture,
    lights: &[u16],
    out: &mut [u8],
) -> PictureAnswer
    ensures value { result ≡ picture_answer picture (rowing (picture_of picture) lights.now (length out.old)) }
    ensures out_after { out.new ≡ buffer_after (picture_of picture) lights.now out.old }
{
    answer(picture, Picture::from(picture).row(lights, out))
}

#[unsafe(no_mangle)]
pub extern "C" fn ferghulta_close(picture: StoredPicture) -> PictureAnswer
    ensures { result ≡ picture_answer picture (closing (picture_of picture)) }
{
    answer(picture, Picture::from(picture).close())
}

// The picture that was given takes part, so this is no From of the change alone.
fn answer(given: StoredPicture, change: Result<Picture, Refusal>) -> PictureAnswer
    ensures { result ≡ picture_answer given (outcome change) }
{
    let (refusal, picture) = in_parts(change.map(StoredPicture::from), given);
    PictureAnswer { refusal, picture }
}
