// The static library, `libvesztamor.a`: each function of the crate `vesztamor` in the C calling convention, with the clauses that it has there. A slice is a
// pointer and a length to C (bindings/vesztamor.h). Assumes nothing.
#![tactic(auto)]

ghost use Rattle.std.specs.Prelude.{◌≡◌};
ghost use Rattle.vesztamor.specs.Packed.{packed};
ghost use Rattle.vesztamor.specs.Exported.{layout, fresh_export, sound_export, executing_export, step_export, bound_export, replay_export};
ghost use Rattle.vesztamor.specs.Metering.{meter_export};

// The layouts that the library is built for. A caller that is built for others reads states, tables, rows and answers wrongly.
#[unsafe(no_mangle)]
pub extern "C" fn vesztamor_layout() -> u64
    ensures { result ≡ layout }
{
    vesztamor::layouts::vesztamor_layout()
}

// The fresh state of a table, into the bytes lent for it, with 0 in every byte past its counts.
#[unsafe(no_mangle)]
pub extern "C" fn vesztamor_fresh(table: &[u8], state: &mut [u8]) -> u64
    ensures answer { result ≡ packed (fresh_export table.now state.old).answer }
    ensures bytes { state.new ≡ (fresh_export table.now state.old).bytes }
{
    vesztamor::states::vesztamor_fresh(table, state)
}

// Whether the bytes hold a sound state.
#[unsafe(no_mangle)]
pub extern "C" fn vesztamor_is_sound(state: &[u8]) -> u64
    ensures { result ≡ packed (sound_export state.now) }
{
    vesztamor::states::vesztamor_is_sound(state)
}

// One event: the state after it in place of the bytes, or a refusal and the bytes as they were.
#[unsafe(no_mangle)]
pub extern "C" fn vesztamor_step(
    state: &mut [u8],
    kind: u16,
    number: u16,
    resource: u16,
    ticks: u32,
) -> u64
    ensures answer { result ≡ packed (step_export state.old kind number resource ticks).answer }
    ensures bytes { state.new ≡ (step_export state.old kind number resource ticks).bytes }
{
    vesztamor::stepping::vesztamor_step(state, kind, number, resource, ticks)
}

// What a server is doing in the state that the bytes hold.
#[unsafe(no_mangle)]
pub extern "C" fn vesztamor_executing(state: &[u8], server: u16) -> u64
    ensures { result ≡ packed (executing_export state.now server) }
{
    vesztamor::states::vesztamor_executing(state, server)
}

// What each server has left and has accounted for, into the rows lent for it.
#[unsafe(no_mangle)]
pub extern "C" fn vesztamor_meter(state: &[u8], rows: &mut [u8]) -> u64
    ensures answer { result ≡ packed (meter_export state.now rows.old).answer }
    ensures bytes { rows.new ≡ (meter_export state.now rows.old).bytes }
{
    vesztamor::metering::vesztamor_meter(state, rows)
}

// The bound of a task and the weighings spent on it, into the bytes lent for them.
#[unsafe(no_mangle)]
pub extern "C" fn vesztamor_bound(sections: &[u8], task: u16, allowance: u32, out: &mut [u8]) -> u64
    ensures answer { result ≡ packed (bound_export sections.now task allowance out.old).answer }
    ensures bytes { out.new ≡ (bound_export sections.now task allowance out.old).bytes }
{
    vesztamor::bounds::vesztamor_bound(sections, task, allowance, out)
}

// The listing of a trace, at the start of the bytes lent for it.
#[unsafe(no_mangle)]
pub extern "C" fn vesztamor_replay(trace: &[u8], out: &mut [u8]) -> u64
    ensures answer { result ≡ packed (replay_export trace.now out.old).answer }
    ensures bytes { out.new ≡ (replay_export trace.now out.old).bytes }
{
    vesztamor::replaying::vesztamor_replay(trace, out)
}
