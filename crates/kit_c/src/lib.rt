// The exports for C: each is the function of kit of the same name, under the same clauses.
#![tactic(auto)]

ghost use Rattle.std.specs.Prelude.{◌≡◌, ◌/◌, length};
ghost use Rattle.refusals.specs.Refusals.{outcome_number, outcome_place};
ghost use Rattle.reader.specs.Reading.{colours_of, channels_of};
ghost use Rattle.fabric.specs.Calls.{unpacked, unpacked_table, packed, packed_into};
ghost use Rattle.stepping.specs.Calls.{start_verdict, state_after_start, step_verdict, state_after_step, moves_after_step, run_verdict, state_after_run};
ghost use Rattle.reaching.specs.Reach.{reach_verdict, sets_after_reach};
ghost use Rattle.checking.specs.Check.{check_verdict, check_constant, bytes_after_check};
ghost use Rattle.ceiling.specs.Ceiling.{ceiling_verdict, ceiling_value};
ghost use Rattle.many.specs.Many.{many_verdict, bytes_after_many};

#[unsafe(no_mangle)]
pub extern "C" fn fabric_unpack(file: &[u8], table: &mut [u8]) -> u32
    ensures { (result ≡ outcome_number (unpacked file.now (length table.old)))
        × (table.new ≡ unpacked_table file.now table.old) }
{
    kit::fabric_unpack(file, table)
}

#[unsafe(no_mangle)]
pub extern "C" fn fabric_unpack_place(file: &[u8], table: &[u8]) -> u64
    ensures { result ≡ outcome_place (unpacked file.now (length table.now)) }
{
    kit::fabric_unpack_place(file, table)
}

#[unsafe(no_mangle)]
pub extern "C" fn fabric_unpack_colours(file: &[u8], table: &[u8]) -> u64
    ensures { result ≡ colours_of (unpacked file.now (length table.now)) }
{
    kit::fabric_unpack_colours(file, table)
}

#[unsafe(no_mangle)]
pub extern "C" fn fabric_unpack_channels(file: &[u8], table: &[u8]) -> u64
    ensures { result ≡ channels_of (unpacked file.now (length table.now)) }
{
    kit::fabric_unpack_channels(file, table)
}

#[unsafe(no_mangle)]
pub extern "C" fn fabric_pack(colours: u64, channels: u64, table: &[u8], file: &mut [u8]) -> u32
    ensures { (result ≡ outcome_number (packed colours channels table.now (length file.old)))
        × (file.new ≡ packed_into colours channels table.now file.old) }
{
    kit::fabric_pack(colours, channels, table, file)
}

#[unsafe(no_mangle)]
pub extern "C" fn fabric_pack_place(colours: u64, channels: u64, table: &[u8], file: &[u8]) -> u64
    ensures { result ≡ outcome_place (packed colours channels table.now (length file.now)) }
{
    kit::fabric_pack_place(colours, channels, table, file)
}

#[unsafe(no_mangle)]
pub extern "C" fn fabric_start(fabric: &[u8], state: &mut [u8]) -> u32
    ensures { (result ≡ outcome_number (start_verdict fabric.now (length state.old)))
        × (state.new ≡ state_after_start fabric.now state.old) }
{
    kit::fabric_start(fabric, state)
}

#[unsafe(no_mangle)]
pub extern "C" fn fabric_start_place(fabric: &[u8], state: &[u8]) -> u64
    ensures { result ≡ outcome_place (start_verdict fabric.now (length state.now)) }
{
    kit::fabric_start_place(fabric, state)
}

#[unsafe(no_mangle)]
pub extern "C" fn fabric_step(
    fabric: &[u8],
    state: &mut [u8],
    choices: &[u8],
    moves: &mut [u8],
) -> u32
    ensures { (result ≡ outcome_number (step_verdict fabric.now state.old choices.now (length moves.old)))
        × (state.new ≡ state_after_step fabric.now state.old choices.now (length moves.old))
        × (moves.new ≡ moves_after_step fabric.now state.old choices.now moves.old) }
{
    kit::fabric_step(fabric, state, choices, moves)
}

#[unsafe(no_mangle)]
pub extern "C" fn fabric_step_place(
    fabric: &[u8],
    state: &[u8],
    choices: &[u8],
    moves: &[u8],
) -> u64
    ensures { result ≡ outcome_place (step_verdict fabric.now state.now choices.now (length moves.now)) }
{
    kit::fabric_step_place(fabric, state, choices, moves)
}

#[unsafe(no_mangle)]
pub extern "C" fn fabric_run(fabric: &[u8], state: &mut [u8], choices: &[u8]) -> u32
    ensures { (result ≡ outcome_number (run_verdict fabric.now state.old choices.now))
        × (state.new ≡ state_after_run fabric.now state.old choices.now) }
{
    kit::fabric_run(fabric, state, choices)
}

#[unsafe(no_mangle)]
pub extern "C" fn fabric_run_place(fabric: &[u8], state: &[u8], choices: &[u8]) -> u64
    ensures { result ≡ outcome_place (run_verdict fabric.now state.now choices.now) }
{
    kit::fabric_run_place(fabric, state, choices)
}

#[unsafe(no_mangle)]
pub extern "C" fn fabric_reach(fabric: &[u8], sets: &mut [u8]) -> u32
    ensures { (result ≡ outcome_number (reach_verdict fabric.now (length sets.old)))
        × (sets.new ≡ sets_after_reach fabric.now sets.old) }
{
    kit::fabric_reach(fabric, sets)
}

#[unsafe(no_mangle)]
pub extern "C" fn fabric_reach_place(fabric: &[u8], sets: &[u8]) -> u64
    ensures { result ≡ outcome_place (reach_verdict fabric.now (length sets.now)) }
{
    kit::fabric_reach_place(fabric, sets)
}

#[unsafe(no_mangle)]
pub extern "C" fn fabric_check(fabric: &[u8], proposal: &[u8], weights: &mut [u8]) -> u32
    ensures { (result ≡ outcome_number (check_verdict fabric.now proposal.now (length weights.old / 8)))
        × (weights.new ≡ bytes_after_check fabric.now proposal.now weights.old) }
{
    kit::fabric_check(fabric, proposal, weights)
}

#[unsafe(no_mangle)]
pub extern "C" fn fabric_check_place(fabric: &[u8], proposal: &[u8], weights: &[u8]) -> u64
    ensures { result ≡ outcome_place (check_verdict fabric.now proposal.now (length weights.now / 8)) }
{
    kit::fabric_check_place(fabric, proposal, weights)
}

#[unsafe(no_mangle)]
pub extern "C" fn fabric_check_constant(fabric: &[u8], proposal: &[u8], weights: &[u8]) -> i64
    ensures { result ≡ check_constant fabric.now proposal.now (length weights.now / 8) }
{
    kit::fabric_check_constant(fabric, proposal, weights)
}

#[unsafe(no_mangle)]
pub extern "C" fn fabric_ceiling(fabric: &[u8], proposal: &[u8], queue: u64, colour: u64) -> u32
    ensures { result ≡ outcome_number (ceiling_verdict fabric.now proposal.now queue colour) }
{
    kit::fabric_ceiling(fabric, proposal, queue, colour)
}

#[unsafe(no_mangle)]
pub extern "C" fn fabric_ceiling_place(
    fabric: &[u8],
    proposal: &[u8],
    queue: u64,
    colour: u64,
) -> u64
    ensures { result ≡ outcome_place (ceiling_verdict fabric.now proposal.now queue colour) }
{
    kit::fabric_ceiling_place(fabric, proposal, queue, colour)
}

#[unsafe(no_mangle)]
pub extern "C" fn fabric_ceiling_value(
    fabric: &[u8],
    proposal: &[u8],
    queue: u64,
    colour: u64,
) -> u64
    ensures { result ≡ ceiling_value fabric.now proposal.now queue colour }
{
    kit::fabric_ceiling_value(fabric, proposal, queue, colour)
}

#[unsafe(no_mangle)]
pub extern "C" fn fabric_check_many(fabric: &[u8], proposals: &[u8], results: &mut [u8]) -> u32
    ensures { (result ≡ outcome_number (many_verdict fabric.now proposals.now (length results.old / 8)))
        × (results.new ≡ bytes_after_many fabric.now proposals.now results.old) }
{
    kit::fabric_check_many(fabric, proposals, results)
}

#[unsafe(no_mangle)]
pub extern "C" fn fabric_check_many_place(fabric: &[u8], proposals: &[u8], results: &[u8]) -> u64
    ensures { result ≡ outcome_place (many_verdict fabric.now proposals.now (length results.now / 8)) }
{
    kit::fabric_check_many_place(fabric, proposals, results)
}
