// Whether lent bytes hold a sound state. It takes any bytes. Assumes nothing.
ghost use Rattle.std.specs.Prelude.{◌≡◌};
ghost use Rattle.image.specs.Decoded.{decoded};
ghost use Rattle.vesztamor.specs.Exported.{is_sound_in};

use soundness::sound::is_sound;

pub fn holds_sound(state: &[u8]) -> bool
    ensures { result ≡ is_sound_in (decoded state.now) }
{
    image::reading::read(state).is_ok_and(is_sound)
}
