// The exported replay. It takes any bytes. Assumes nothing.
ghost use Rattle.std.specs.Prelude.{◌≡◌};
ghost use Rattle.vesztamor.specs.Packed.{packed};
ghost use Rattle.vesztamor.specs.Exported.{replay_export};

use crate::answers::unfit;
use listing::TooShort;

// The listing of a trace, at the start of the bytes lent for it.
#[tactic(auto, unfolding(crate::specs::Exported::replay_export))]
pub fn vesztamor_replay(trace: &[u8], out: &mut [u8]) -> u64
    ensures answer { result ≡ packed (replay_export trace.now out.old).answer }
    ensures bytes { out.new ≡ (replay_export trace.now out.old).bytes }
{
    match listing::whole::replay(trace, out) {
        Ok(length) => length as u64,
        Err(TooShort) => unfit(),
    }
}
