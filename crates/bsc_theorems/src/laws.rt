//! The promises, each carried by a function that calls the laws that it is made of, and does nothing.
ghost use Rattle.bsc_session.specs.Jobs.{Worked};
ghost use Rattle.bsc_node_run.specs.Drawing.{Draws};
ghost use Rattle.bsc_theorems.specs.Theorems.{LayersCompose, NetworksDeliverWhatWasSent, OneLegalHistory, OperationsAreTheModel, RefusalsHaveTheirCauses, WhatRanDelivers};

use bsc_desk::Desk;
use bsc_edge::{Clock, Journals, Link};
use bsc_node_run::Words;
use bsc_outside::Sink;

/// Whatever threads call one hub, their calls stand in one legal history, and that keeps the laws of a hub.
pub fn one_legal_history()
    ensures { OneLegalHistory }
{
    bsc_history::numbering();
    bsc_history::numbers_are_new();
    bsc_history::one_holder();
    bsc_history::one_of_device();
    bsc_history::unicast_joins();
    bsc_history::unicast_to_holder_alone();
    bsc_history::broadcast_joins();
    bsc_history::broadcast_to_others_alone();
    bsc_history::once();
    bsc_history::full_closes();
    bsc_history::full_misses();
    bsc_history::one_of_three();
    bsc_history::after_end();
    bsc_history::join_takes_over();
    bsc_history::refusal_changes_none();
    bsc_history::end_stays();
    bsc_history::ends_by_cause();
    bsc_history::naming();
    bsc_history::until_end();
    bsc_history::within();
    bsc_turn::one_history::<Desk>();
    bsc_hub::own_stays();
    bsc_hub::is_whole();
}

/// Octets, verdicts, machines, nodes and scripts are what their definitions say.
pub fn operations_are_the_model()
    ensures { OperationsAreTheModel }
{
    bsc_frame::one_spelling();
    bsc_options::one_spelling();
    bsc_options::reads_back();
    bsc_checks::one_outcome();
    bsc_checks::one_verdict();
    bsc_accept::ticks_close();
    bsc_accept::messages_are_heard();
    bsc_initiate::messages_are_heard();
    bsc_resolve::what_is_learnt_stays();
    bsc_direct::established_slots_are_apart();
    bsc_node::npdus_are_put_once();
    bsc_node::delivers_what_came();
    bsc_node::broadcasts_keep_off_slots();
    bsc_script_laws::a_script_is_of_one_hub();
}

/// Each layer does what the one below says of it.
pub fn layers_compose<L: Link, C: Clock, N: Sink, J: Journals<N>, W: Words>()
    ensures { LayersCompose L.talk (Worked L.talk L.faults L.notices C.readings N.held N.faults) J.begins (Draws W.gives W.faults) }
{
    bsc_session_laws::messages_are_given();
    bsc_session_laws::forwards_are_carried();
    bsc_session_laws::connects_are_asked();
    bsc_session_laws::frames_follow_accept();
    bsc_session_laws::policy_is_followed();
    bsc_session_laws::sessions_follow_ports();
    bsc_world::hub_sides_follow_ports();
    bsc_session::sessions_end_at_fault();
    bsc_session::wakes_whom_it_concerns();
    bsc_serve::serving_is_alone::<L, C, N, J>();
    bsc_serve::seen_are_of_jobs::<L, C, N, J>();
    bsc_serve::jobs_end_at_last::<L, C, N, J>();
    bsc_serve::nothing_behind_stop::<L, C, N, J>();
    bsc_node_laws::links_begin_anew();
    bsc_node_links::runs_use_links::<L>();
    bsc_node_command::ran_nodes_tell::<L, W>();
    bsc_node_command::stopped_nodes_tell::<L, W>();
    bsc_audit_laws::one_history();
}

/// Whatever steps are made in a network, what it delivers was sent.
pub fn networks_deliver_what_was_sent()
    ensures { NetworksDeliverWhatWasSent }
{
    bsc_network_laws::networks_deliver_what_was_sent();
    bsc_network_laws::deliveries_are_all();
    bsc_network_laws::histories_are_legal();
    bsc_network_laws::puts_what_was_sent();
    bsc_network_laws::outboxes_have_what_was_sent();
    bsc_network_laws::taken_comes_down();
    bsc_network_laws::connections_are_of_diallers();
    bsc_network_laws::peers_are_there();
    bsc_node_identity::slots_have_who_named_itself();
}

/// Whatever hubs and nodes the commands ran, what they delivered was sent, as far as their wires carry what is put on them.
pub fn what_ran_delivers<L: Link, C: Clock, N: Sink, J: Journals<N>, K: Link, W: Words>()
    ensures { WhatRanDelivers L.talk L.faults L.notices C.readings N.held N.faults J.begins K.talk (Draws W.gives W.faults) }
{
    bsc_ran_networks::hubs_and_nodes_that_ran_deliver::<L, C, N, J, K, W>();
    bsc_ran_networks::what_ran_delivers_by_wires::<L, C, N, J, K, W>();
}

/// What is refused or ends has the cause that is told.
pub fn refusals_have_their_causes()
    ensures { RefusalsHaveTheirCauses }
{
    bsc_frame::one_check();
    bsc_session::causes_are_exact();
    bsc_resolve::a_node_holds_256_vmacs();
    bsc_audit_laws::one_verdict();
}
