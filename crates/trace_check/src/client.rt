//! The client's entry that is due.
ghost use Rattle.std.specs.Prelude.{◌≡◌, ◌<◌, ◌^◌, ◌+◌, IsTrue, length};
ghost use Rattle.cam_types.specs.Profile.{is_profile};
ghost use Rattle.run_model.specs.Ready.{or_entry};
ghost use Rattle.state_facts.specs.FrameReadings.{is_none_left};
ghost use Rattle.client_calls.specs.Around.{IsAround};
ghost use Rattle.state_facts.specs.Replies.{begin_in, call_in};

use cam_types::Script;
use client_calls::Around;
use judge_rows::JudgeTables;
use trace_model::Entry;

/// What replies ask of the other parts of the state.
fn around(tables: &JudgeTables) -> Around
    requires { tables.now.state.buffers.first + (length tables.now.state.buffers.places + 72) < 2 ^ 32 }
    ensures around { IsAround result tables.now.state.queue tables.now.state.buffers }
    ensures quiet { result.quiet ≡ is_none_left tables.now.state.rows }
    ensures next { result.next_buffer ≡ tables.now.state.buffers.first + length tables.now.state.buffers.places }
{
    Around {
        quiet: tables.rows().is_empty(),
        waiting: tables.captures().waiting(),
        is_repeating: tables.captures().is_repeating(),
        requests: tables.captures().requests(),
        next_buffer: tables.homes().next_buffer(),
        all_home: tables.homes().is_all_home(),
    }
}

/// The begin or the call that is due.
pub fn client_due(script: &Script, tables: &JudgeTables) -> Option<Entry>
    requires profile { IsTrue (is_profile script.now.profile) }
    requires numbered { tables.now.state.buffers.first + (length tables.now.state.buffers.places + 72) < 2 ^ 32 }
    ensures { let s = tables.now.state in
        result ≡ or_entry (begin_in script.now s.client)
        (call_in script.now (is_none_left s.rows) s.client s.queue s.buffers) }
{
    tables.client().due(script, around(tables))
}
