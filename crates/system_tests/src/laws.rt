//! Each law can be called.
use crate::mounts::call_of;
use fs_model::{
    a_finding_is_the_first, a_new_disk_stands_for_an_empty_root, a_sync_leaves_one_tree,
    actors_call_as_processes, an_image_stands_for_one_tree, call_is_in_range, decision_is_unique,
    finds_are_there, first_refusal_is_least, fitting_states_drop_nothing,
    free_sectors_are_within_bounds, handles_stay, kinds_agree, no_demand_is_an_io_error,
    numbers_are_counts, one_node_changes, pruning_keeps_trees, rewriting_keeps_names,
    rules_say_what_stands, same_process_stays, some_image_stands_for_a_tree,
    standing_rests_on_what_is_used, steps_keep_states, unreadable_bytes_do_not_show,
    unreadable_bytes_do_not_show_outside,
};
use fs_system::{a_running_system_is_in_one_state, histories_are_runs, trees_are_sound};
use sector_disk::{FuseDisk, MemDisk};
use std::alloc::Global;
use std::test::Fail;

// The law on calls, of the call of a line.
fn law_on(alloc: Global, line: &[u8]) -> Result<(), Fail> {
    let call = call_of(alloc, line)?;
    call_is_in_range(&call);
    call.discard();
    Ok(())
}

#[test]
fn laws_of_the_model_do_nothing(rt: HostRuntime) -> Result<(), Fail> {
    law_on(rt.alloc(), b"1 open / rd")?;
    law_on(rt.alloc(), b"1 rename /a /b")?;
    a_finding_is_the_first();
    kinds_agree();
    no_demand_is_an_io_error();
    numbers_are_counts();
    rules_say_what_stands();
    decision_is_unique();
    first_refusal_is_least();
    pruning_keeps_trees();
    a_sync_leaves_one_tree();
    an_image_stands_for_one_tree();
    free_sectors_are_within_bounds();
    one_node_changes();
    a_new_disk_stands_for_an_empty_root();
    some_image_stands_for_a_tree();
    fitting_states_drop_nothing();
    same_process_stays();
    rewriting_keeps_names();
    actors_call_as_processes();
    handles_stay();
    finds_are_there();
    standing_rests_on_what_is_used();
    steps_keep_states();
    unreadable_bytes_do_not_show();
    unreadable_bytes_do_not_show_outside();
    Ok(())
}

#[test]
fn laws_of_file_systems_do_nothing(_rt: HostRuntime) {
    histories_are_runs::<MemDisk>();
    trees_are_sound::<MemDisk>();
    a_running_system_is_in_one_state::<MemDisk>();
    fs_system::unreadable_bytes_do_not_show::<MemDisk, FuseDisk<MemDisk>>();
}
