// The calls for the C host, on numbers and byte slices: crate kit_c exports each under the same name and clauses. Each returns the number
// of its verdict; the sister calls take the same input and write nothing.
#![tactic(auto)]

ghost use Rattle.std.specs.Prelude.{◌≡◌, ◌/◌, length};
ghost use Rattle.refusals.specs.Refusals.{outcome_number, outcome_place};
ghost use Rattle.reader.specs.Reading.{colours_of, channels_of};
ghost use Rattle.fabric.specs.Calls.{unpacked, unpacked_table, packed, packed_into};
ghost use Rattle.stepping.specs.Calls.{start_verdict, state_after_start, step_verdict, state_after_step, moves_after_step, run_verdict, state_after_run};
ghost use Rattle.reaching.specs.Reach.{reach_verdict, sets_after_reach};
ghost use Rattle.checking.specs.Check.{check_verdict, check_constant, bytes_after_check};
ghost use Rattle.ceiling.specs.Ceiling.{ceiling_verdict, ceiling_value};
ghost use Rattle.many.specs.Many.{many_verdict, bytes_after_many};

use refusals::{outcome_number, outcome_place};

pub fn fabric_unpack(file: &[u8], table: &mut [u8]) -> u32
    ensures { (result ≡ outcome_number (unpacked file.now (length table.old)))
        × (table.new ≡ unpacked_table file.now table.old) }
{
    outcome_number(fabric::unpack(file, table))
}

pub fn fabric_unpack_place(file: &[u8], table: &[u8]) -> u64
    ensures { result ≡ outcome_place (unpacked file.now (length table.now)) }
{
    outcome_place(fabric::unpack_answer(file, table.len())) as u64
}

pub fn fabric_unpack_colours(file: &[u8], table: &[u8]) -> u64
    ensures { result ≡ colours_of (unpacked file.now (length table.now)) }
{
    fabric::unpack_answer(file, table.len()).map_or(0, |size| size.colours) as u64
}

pub fn fabric_unpack_channels(file: &[u8], table: &[u8]) -> u64
    ensures { result ≡ channels_of (unpacked file.now (length table.now)) }
{
    fabric::unpack_answer(file, table.len()).map_or(0, |size| size.channels) as u64
}

pub fn fabric_pack(colours: u64, channels: u64, table: &[u8], file: &mut [u8]) -> u32
    ensures { (result ≡ outcome_number (packed colours channels table.now (length file.old)))
        × (file.new ≡ packed_into colours channels table.now file.old) }
{
    outcome_number(fabric::pack(colours, channels, table, file))
}

pub fn fabric_pack_place(colours: u64, channels: u64, table: &[u8], file: &[u8]) -> u64
    ensures { result ≡ outcome_place (packed colours channels table.now (length file.now)) }
{
    outcome_place(fabric::pack_answer(colours, channels, table, file.len())) as u64
}

pub fn fabric_start(fabric: &[u8], state: &mut [u8]) -> u32
    ensures { (result ≡ outcome_number (start_verdict fabric.now (length state.old)))
        × (state.new ≡ state_after_start fabric.now state.old) }
{
    outcome_number(stepping::start(fabric, state))
}

pub fn fabric_start_place(fabric: &[u8], state: &[u8]) -> u64
    ensures { result ≡ outcome_place (start_verdict fabric.now (length state.now)) }
{
    outcome_place(stepping::start_answer(fabric, state.len())) as u64
}

pub fn fabric_step(fabric: &[u8], state: &mut [u8], choices: &[u8], moves: &mut [u8]) -> u32
    ensures { (result ≡ outcome_number (step_verdict fabric.now state.old choices.now (length moves.old)))
        × (state.new ≡ state_after_step fabric.now state.old choices.now (length moves.old))
        × (moves.new ≡ moves_after_step fabric.now state.old choices.now moves.old) }
{
    outcome_number(stepping::step(fabric, state, choices, moves))
}

pub fn fabric_step_place(fabric: &[u8], state: &[u8], choices: &[u8], moves: &[u8]) -> u64
    ensures { result ≡ outcome_place (step_verdict fabric.now state.now choices.now (length moves.now)) }
{
    outcome_place(stepping::step_answer(fabric, state, choices, moves.len())) as u64
}

pub fn fabric_run(fabric: &[u8], state: &mut [u8], choices: &[u8]) -> u32
    ensures { (result ≡ outcome_number (run_verdict fabric.now state.old choices.now))
        × (state.new ≡ state_after_run fabric.now state.old choices.now) }
{
    outcome_number(stepping::run(fabric, state, choices))
}

pub fn fabric_run_place(fabric: &[u8], state: &[u8], choices: &[u8]) -> u64
    ensures { result ≡ outcome_place (run_verdict fabric.now state.now choices.now) }
{
    outcome_place(stepping::run_answer(fabric, state, choices)) as u64
}

pub fn fabric_reach(fabric: &[u8], sets: &mut [u8]) -> u32
    ensures { (result ≡ outcome_number (reach_verdict fabric.now (length sets.old)))
        × (sets.new ≡ sets_after_reach fabric.now sets.old) }
{
    outcome_number(reaching::reach(fabric, sets))
}

pub fn fabric_reach_place(fabric: &[u8], sets: &[u8]) -> u64
    ensures { result ≡ outcome_place (reach_verdict fabric.now (length sets.now)) }
{
    outcome_place(reaching::reach_answer(fabric, sets.len())) as u64
}

pub fn fabric_check(fabric: &[u8], proposal: &[u8], weights: &mut [u8]) -> u32
    ensures { (result ≡ outcome_number (check_verdict fabric.now proposal.now (length weights.old / 8)))
        × (weights.new ≡ bytes_after_check fabric.now proposal.now weights.old) }
{
    outcome_number(checking::check(fabric, proposal, weights))
}

pub fn fabric_check_place(fabric: &[u8], proposal: &[u8], weights: &[u8]) -> u64
    ensures { result ≡ outcome_place (check_verdict fabric.now proposal.now (length weights.now / 8)) }
{
    outcome_place(checking::check_answer(fabric, proposal, weights.len() / 8)) as u64
}

pub fn fabric_check_constant(fabric: &[u8], proposal: &[u8], weights: &[u8]) -> i64
    ensures { result ≡ check_constant fabric.now proposal.now (length weights.now / 8) }
{
    checking::check_answer(fabric, proposal, weights.len() / 8).unwrap_or(0)
}

pub fn fabric_ceiling(fabric: &[u8], proposal: &[u8], queue: u64, colour: u64) -> u32
    ensures { result ≡ outcome_number (ceiling_verdict fabric.now proposal.now queue colour) }
{
    outcome_number(ceiling::ceiling(fabric, proposal, queue, colour))
}

pub fn fabric_ceiling_place(fabric: &[u8], proposal: &[u8], queue: u64, colour: u64) -> u64
    ensures { result ≡ outcome_place (ceiling_verdict fabric.now proposal.now queue colour) }
{
    outcome_place(ceiling::ceiling(fabric, proposal, queue, colour)) as u64
}

pub fn fabric_ceiling_value(fabric: &[u8], proposal: &[u8], queue: u64, colour: u64) -> u64
    ensures { result ≡ ceiling_value fabric.now proposal.now queue colour }
{
    ceiling::ceiling(fabric, proposal, queue, colour).unwrap_or(0) as u64
}

pub fn fabric_check_many(fabric: &[u8], proposals: &[u8], results: &mut [u8]) -> u32
    ensures { (result ≡ outcome_number (many_verdict fabric.now proposals.now (length results.old / 8)))
        × (results.new ≡ bytes_after_many fabric.now proposals.now results.old) }
{
    outcome_number(many::check_many(fabric, proposals, results))
}

pub fn fabric_check_many_place(fabric: &[u8], proposals: &[u8], results: &[u8]) -> u64
    ensures { result ≡ outcome_place (many_verdict fabric.now proposals.now (length results.now / 8)) }
{
    outcome_place(many::check_many_answer(fabric, proposals, results.len() / 8)) as u64
}
