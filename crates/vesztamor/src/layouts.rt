// The exported number of the layouts. Assumes nothing.
ghost use Rattle.std.specs.Prelude.{◌≡◌};
ghost use Rattle.vesztamor.specs.Exported.{layout};

const LAYOUT: u64 = 1;

// The layouts that the library is built for. A caller that is built for others reads states, tables, rows and answers wrongly.
pub fn vesztamor_layout() -> u64
    ensures { result ≡ layout }
{
    LAYOUT
}
