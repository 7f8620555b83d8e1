//! Laws of the definitions. These functions do nothing: their contracts are the laws.

ghost use Rattle.std.specs.Prelude.{◌≡◌, ◌<◌, ◌≤◌, ◌+◌, ℕ, List, length};
ghost use Rattle.proto_model.specs.Faults.{IsWellFormed};
ghost use Rattle.proto_model.specs.Numbered.{numbered};
ghost use Rattle.proto_model.specs.Sayable.{IsSayable};
ghost use Rattle.proto_model.specs.declared.mode.Mode.{Mode as TheMode};
ghost use Rattle.proto_model.specs.declared.protocol.Protocol.{Protocol as TheProtocol};
ghost use Rattle.schedule_replay.specs.ScheduleLimits.{schedule_limits};
ghost use Rattle.schedule_replay.specs.Played.{AtEnd, Halted, played, trace};
ghost use Rattle.schedule_replay.specs.TextLines.{closed_lines};
ghost use Rattle.async_shape.specs.Setting.{Setting};
ghost use Rattle.async_shape.specs.Config.{Config, count_of};
ghost use Rattle.async_shape.specs.Shape.{IsShaped};
ghost use Rattle.run_replay.specs.RunTrace.{run_play, run_start};
ghost use Rattle.run_replay.specs.StateLines.{home_state_line, remote_state_line};
ghost use Rattle.trace_audit.specs.AuditedTrace.{audited, RefusedAt};
ghost use Rattle.trace_soundness.specs.Passing.{IsAccepted};
ghost use Rattle.trace_soundness.specs.ShownLines.{IsShownLine};

/// Each line that shows where the home or a remote stands in a configuration of a run is one line
/// of at most 65,536 bytes, and begins with two spaces: for each well-formed protocol that a file
/// can say.
pub fn each_line_fits()
    ensures home { (protocol : TheProtocol) → IsSayable protocol → IsWellFormed protocol
        → (setting : Setting) (c : Config) → setting.protocol ≡ (numbered protocol).protocol
        → IsShaped setting c → IsShownLine (home_state_line setting.protocol c) }
    ensures remote { (protocol : TheProtocol) → IsSayable protocol → IsWellFormed protocol
        → (setting : Setting) (c : Config) (j : ℕ) → setting.protocol ≡ (numbered protocol).protocol
        → IsShaped setting c → j < count_of c
        → IsShownLine (remote_state_line setting.protocol c j) }
{}

/// Each trace of a run that is played to its end is accepted by the auditor of traces: for each
/// well-formed protocol that a file can say, either mode, from 1 to 64 remotes, from 2 to 64 slots,
/// and any schedule.
pub fn every_trace_passes()
    ensures { (protocol : TheProtocol) → IsSayable protocol → IsWellFormed protocol
        → (mode : TheMode) (n k : ℕ) → 1 ≤ n → n ≤ 64 → 2 ≤ k → k ≤ 64
        → (schedule : List ℕ)
        → (played run_play schedule_limits (run_start (numbered protocol) mode n k) schedule).stop
        ≡ AtEnd
        → IsAccepted (audited (numbered protocol).protocol n
        (trace run_play schedule_limits (run_start (numbered protocol) mode n k) schedule)) }
{}

/// A trace that a broken claim ends is refused at the line that names the claim, the first one
/// behind the blocks: under the same conditions.
pub fn a_broken_claim_is_refused()
    ensures { (protocol : TheProtocol) → IsSayable protocol → IsWellFormed protocol
        → (mode : TheMode) (n k : ℕ) → 1 ≤ n → n ≤ 64 → 2 ≤ k → k ≤ 64
        → (schedule : List ℕ) (lines claim : ℕ)
        → (played run_play schedule_limits (run_start (numbered protocol) mode n k) schedule).stop
        ≡ Halted lines claim
        → audited (numbered protocol).protocol n
        (trace run_play schedule_limits (run_start (numbered protocol) mode n k) schedule)
        ≡ RefusedAt (length (closed_lines
        (played run_play schedule_limits (run_start (numbered protocol) mode n k) schedule).blocks)
        + 1) }
{}
