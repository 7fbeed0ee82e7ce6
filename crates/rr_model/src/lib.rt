//! The model: the world, in which nodes crash and messages are lost, repeated and reordered; what a sound run is; and what a
//! node does. `agreement` says that every run is sound, whatever the number of nodes. A node is defined in `specs/NodeStep.antt`.
//! `laws_of_nodes` ties it to the world. The functions here do nothing: their contracts are the theorems.
//!
//! # Example
//!
//! This is in `crates/first_pages/src/model.rt`:
//!
//! ```rust
//! ghost use Rattle.std.specs.Prelude.{List};
//! ghost use Rattle.rr_model.specs.Sound.{IsSound};
//! ghost use Rattle.rr_model.specs.World.{Step, IsRun};
//!
//! use rr_model::agreement;
//!
//! /// Every run of three nodes is sound.
//! pub fn agreement_of_three()
//!     ensures { (run : List Step) → IsRun 3 run → IsSound 3 run }
//! {
//!     agreement();
//! }
//! ```
#![tactic(auto)]

mod deed;

ghost use Rattle.std.specs.Prelude.{◌≡◌, ℕ, Bool, List, [], ◌∷◌, ◌++◌, ◌↔◌, Option, None, Some, IsTrue};
ghost use Rattle.std.specs.List.{Contains};
ghost use Rattle.rr_types.specs.declared.command.Command.{Command};
ghost use Rattle.rr_types.specs.declared.command.Reply.TheVariants.{Claimed};
ghost use Rattle.rr_types.specs.declared.fact.Fact.{Fact};
ghost use Rattle.rr_types.specs.Commands.{is_same_command};
ghost use Rattle.rr_types.specs.Promises.{all_fit};
ghost use Rattle.rr_types.specs.declared.fact.Fact.TheVariants.{Enter, Propose, Adopt, Decide};
ghost use Rattle.rr_types.specs.declared.message.Body.TheVariants.{Estimate};
ghost use Rattle.rr_types.specs.declared.message.Message.{Message};
ghost use Rattle.rr_model.specs.NodeState.{NodeState};
ghost use Rattle.rr_model.specs.NodeDue.{Due, due, carry_out, settle};
ghost use Rattle.rr_model.specs.NodeStays.{StaysMarked};
ghost use Rattle.rr_types.specs.declared.input.Input.{Input};
ghost use Rattle.rr_model.specs.NodeStep.{node_step, next_leaving, next_acknowledged};
ghost use Rattle.rr_model.specs.NodeExamples.{told_alone, decided_alone, marked_alone, asked_again, asked_by_another};
ghost use Rattle.rr_model.specs.NodeLaws.{StateEvent, IsTruthful, IsLawfulNode, IsTruthfulNode};
ghost use Rattle.rr_model.specs.NodeWorld.{IsWorldlyNode, steps_of_event};
ghost use Rattle.rr_model.specs.NodeReached.{IsProperEvent, IsReached, StagesLawfully, IsItself, NamesRounds};
ghost use Rattle.rr_model.specs.NodeInWorld.{IsInWorld, LeavesTheGroup, IsRunInWorld, SettlesItsGroup, MarksWhatIsSettled, PutsBackItsGroup, GoesDown, Restarts, AreStepsAt, LeavesAlone, SaysJustThat};
ghost use Rattle.rr_model.specs.Lawful.{Heard};
ghost use Rattle.rr_model.specs.World.{World, Step, Acknowledged, Reported, decided_prefix, IsRun, end_of};
ghost use Rattle.rr_model.specs.Examples.{first_request, claim_a_x, to_itself, first_estimate, decides_and_acknowledges, told_by_it, stages_and_crashes, goes_on, IsProposeOfAnotherUnlawful, IsAdoptBelowTheStampUnlawful, IsDecideWithoutMajorityUnlawful, IsEnterWithMadeUpCommandUnlawful};
ghost use Rattle.rr_model.specs.ClusterExamples.{claim_a_y, round_stamp, first_round, two_rounds, IsDecideUnheardUnlawful, IsProposeOfAnotherCommandUnlawful, kept_over_two_rounds, decides_by_the_others, kept_by_it, crashes_before_it_tells, enters_anew, tells_it_now, IsLostEstimateUnlawful, decides_instance_1, decides_out_of_order, decides_twice, registry_of_one_claim};
ghost use Rattle.rr_model.specs.Sound.{IsSound, IsChosen, IsDecidedList};
ghost use Rattle.rr_model.specs.declared.deed.Deed.{Deed};
ghost use Rattle.rr_model.specs.Deeds.{IsHistory, OpensWell, AgreesWithOneList as AgreesWithOne, first_start, IsFirstStartEmpty, HearsNothingUnsent, DoesNothingDown};
ghost use Rattle.rr_model.specs.LostDisks.{DoDecisionsOutweigh, StagesJustTheNews, DoesNewsOutweigh, lives_after, BoundsLostFacts, MayBeginAnew, asked_alone, HasFactsOfEight, DoesOneLeftOutCount};
ghost use Rattle.rr_model.specs.NodeOpens.{OpensTheLowest};
ghost use Rattle.rr_model.specs.RenewedDisks.{Turn, AreTurns, DoTurnsAgree, lives_then, AreDisksChosen, MayBeRenewed, renewed_in_time, IsRenewedTooEarly};
ghost use Rattle.rr_model.specs.NoDeadEnd.{NoDeadEnd, EachCanBeServed};
ghost use Rattle.rr_model.specs.NodesGoOn.{NodesCanGoOn, RoundsCanEnd, DecisionsCanBeLearned};
ghost use Rattle.rr_model.specs.NodesRestart.{GapsCanBeFilled, DecidedCanBeAcknowledged, RequestsCanBeServed};
ghost use Rattle.rr_model.specs.Laws.{after_steps, AreBeginningsRuns, StaysChosen, DoesListGrow, AreKeptFactsNeverLost, DoRoundsRise, DoAcksBind, AreProposalsLocked, KeepsRealTime, DoLaterCommandsStandBehind, DoCrashedNodesDecideAlike, DoCrashedNodesBeginTheList, DoCrashedNodesKnowTheirReplies, DoesWhatIsLeftFit, DoesPromiseStand, DoLawfulFactsFit};

pub use deed::{Deed, What};

/// Agreement and durability: every run of any number of nodes is sound, whatever is lost, repeated, reordered,
/// suspected, crashed and restarted.
pub fn agreement()
    ensures every_run_is_sound { (n : ℕ) (run : List Step) → IsRun n run → IsSound n run }
{}

/// No run is a dead end. After whatever happened, a majority of the nodes can go on without the others: it can decide
/// any instance, and serve any request that a client submits to it.
pub fn no_dead_end()
    ensures a_majority_can_decide { NoDeadEnd }
    ensures each_request_can_be_served { EachCanBeServed }
{}

/// Nodes as they are defined can go on, with no tick and no suspicion. Behind a restart a majority can decide the
/// instance below which each of them has decided all. Where none has a fact of it, it is the client's command, and the
/// reply is due at each. Where they stand in one round that one of them coordinates, what each restates is enough, and
/// the round may be the last. What one node has decided, others can learn of it. Where all restart again and again, and
/// further commands come, they can decide all instances below an end, and serve each request.
pub fn nodes_can_go_on()
    ensures a_majority_can_decide_next { NodesCanGoOn }
    ensures a_round_can_be_ended { RoundsCanEnd }
    ensures a_decision_can_be_learned { DecisionsCanBeLearned }
    ensures gaps_can_be_filled { GapsCanBeFilled }
    ensures a_decided_request_can_be_acknowledged { DecidedCanBeAcknowledged }
    ensures each_request_can_be_served { RequestsCanBeServed }
{}

/// Laws of runs, of which agreement is made: rounds rise, an acknowledgement binds what its sender says
/// later, and a later round proposes what a majority has locked.
pub fn laws_of_runs()
    ensures a_beginning_is_a_run { (n : ℕ) (run : List Step) → IsRun n run → AreBeginningsRuns n run }
    ensures what_is_chosen_stays_chosen { (n : ℕ) (run : List Step) → IsRun n run → StaysChosen n run }
    ensures the_decided_list_only_grows { (n : ℕ) (run : List Step) → IsRun n run → DoesListGrow n run }
    ensures kept_facts_are_never_lost { (n : ℕ) (run : List Step) → IsRun n run → AreKeptFactsNeverLost run }
    ensures rounds_rise_over_restarts { (n : ℕ) (run : List Step) → IsRun n run → DoRoundsRise run }
    ensures an_ack_binds_later_estimates { (n : ℕ) (run : List Step) → IsRun n run → DoAcksBind run }
    ensures later_proposals_are_locked { (n : ℕ) (run : List Step) → IsRun n run → AreProposalsLocked n run }
    ensures what_a_crash_leaves_fits { (n : ℕ) (run : List Step) → IsRun n run → DoesWhatIsLeftFit n run }
{}

/// The decided list keeps the order of real time. A command that some node acknowledged before another was first
/// submitted stands before it in the list. So the list is a linearization of the acknowledged commands (Herlihy and
/// Wing 1990). It gives each reply, and no command stands before one that was acknowledged before it was submitted.
pub fn order_in_real_time()
    ensures acknowledged_comes_first { (n : ℕ) (run : List Step) → IsRun n run → KeepsRealTime n run }
    ensures later_commands_stand_behind { (n : ℕ) (run : List Step) → IsRun n run → DoLaterCommandsStandBehind n run }
{}

/// Nodes agree by what crashes leave of their facts, whichever of the staged ones that are. No two of them decide an
/// instance differently. What a node has decided without a gap is a beginning of the decided list, and gives each reply
/// that the node has acknowledged.
pub fn crashed_nodes_agree()
    ensures they_decide_alike { (n : ℕ) (run : List Step) → IsRun n run → DoCrashedNodesDecideAlike run }
    ensures they_begin_the_list { (n : ℕ) (run : List Step) → IsRun n run → DoCrashedNodesBeginTheList n run }
    ensures they_know_their_replies { (n : ℕ) (run : List Step) → IsRun n run → DoCrashedNodesKnowTheirReplies run }
{}

/// A history of what nodes do, with their stops and starts, agrees with one list of commands: whatever their hosts do, and
/// in whichever order. Its one premise is that each start finds on its disk the facts that its node had marked, and a
/// beginning of those behind them.
pub fn histories_agree()
    ensures { (n : ℕ) (deeds : List Deed) → IsHistory n deeds → OpensWell n deeds → AgreesWithOne n deeds }
{}

/// Small histories show that the definitions can be met, and what they forbid.
pub fn examples_of_histories()
    ensures a_start_over_nothing { IsHistory 1 first_start }
    ensures it_finds_its_facts { OpensWell 1 first_start }
    ensures a_first_start_finds_nothing { IsFirstStartEmpty }
    ensures what_nobody_sent_is_not_heard { HearsNothingUnsent }
    ensures a_node_that_is_down_does_nothing { DoesNothingDown }
{}

/// When a node whose disk is lost may begin anew, with nothing but decisions. Take a majority without it, and the highest
/// instance of which a disk of these has a fact. The lost node has decided no later instance, and has had no fact of one
/// more than eight above. So it may begin anew once a command is chosen for each instance up to there. With these decisions
/// alone it stands as if it had kept its disk and heard them. Only the numbers of its facts differ, which no other node sees.
///
/// The premises are those of [`histories_agree`], and that the commands are chosen. [`renewed_disks`] says what then follows.
pub fn lost_disks()
    ensures decisions_outweigh_facts { (facts : List Fact) (list : List Command) → DoDecisionsOutweigh facts list }
    ensures a_node_stages_what_is_news { (n p : ℕ) (facts : List Fact) (list : List Command) → StagesJustTheNews n p facts list }
    ensures what_is_news_outweighs_them { (n : ℕ) (run : List Step) → IsRun n run → DoesNewsOutweigh n run }
    ensures a_majority_bounds_lost_facts { (n : ℕ) (deeds : List Deed) → IsHistory n deeds → OpensWell n deeds → BoundsLostFacts n (lives_after n deeds) }
    ensures a_lost_node_may_begin_anew { (n : ℕ) (deeds : List Deed) → IsHistory n deeds → OpensWell n deeds → MayBeginAnew n deeds }
{}

/// Histories in which lost disks are made anew, of decisions alone, agree with one list, as [`histories_agree`] says of
/// others. There a disk may be made anew where its node is down and the list's commands are chosen. All facts that the node
/// had have to lie below the end of the list. A majority bounds these facts here too. Let one promise nothing from some
/// instance on, while the node is down, and let the node do nothing since. Then its disk may be made anew once commands are
/// chosen for all instances up to the eight from there. What the disk of any node that is down has decided without a gap
/// is chosen.
///
/// That the disk has just these decisions, and that nobody uses the old one again, are premises.
pub fn renewed_disks()
    ensures renewed_histories_agree { (n : ℕ) (turns : List Turn) → AreTurns n turns → DoTurnsAgree n turns }
    ensures a_majority_bounds_lost_facts { (n : ℕ) (turns : List Turn) → AreTurns n turns → BoundsLostFacts n (lives_then n turns) }
    ensures what_disks_have_decided_is_chosen { (n : ℕ) (turns : List Turn) → AreTurns n turns → AreDisksChosen n (lives_then n turns) }
    ensures a_lost_disk_may_be_made_anew { (n : ℕ) (before after : List Turn) → AreTurns n (before ++ after) → MayBeRenewed n before after }
{}

/// Small examples of lost disks. A node can have facts of all eight instances, of which no other node has heard. Where one
/// of them is left out, the lost node would stand otherwise, and its disk may not be made anew.
pub fn examples_of_lost_disks()
    ensures a_node_is_asked_alone { IsHistory 3 asked_alone }
    ensures it_finds_its_facts { OpensWell 3 asked_alone }
    ensures it_has_facts_of_eight_instances { HasFactsOfEight }
    ensures one_left_out_counts { DoesOneLeftOutCount }
    ensures a_disk_is_made_anew { AreTurns 3 renewed_in_time }
    ensures not_with_an_instance_left_out { IsRenewedTooEarly }
{}

/// Laws of facts: what a promise says, that lawful facts fit, and which commands are one.
pub fn laws_of_facts()
    ensures a_promise_says_where_instances_stand { (facts : List Fact) → DoesPromiseStand facts }
    ensures lawful_facts_fit { (n p : ℕ) (facts : List Fact) → DoLawfulFactsFit n p facts }
    ensures same_commands_are_equal { (c d : Command) → IsTrue (is_same_command c d) ↔ (c ≡ d) }
{}

/// Laws of a node. Opened over any facts, it stages only facts that are lawful, whatever it is told. It does
/// what is due, one thing after another, until nothing is due. Opened over facts that fit, it sends only what
/// its marked facts back, and each of its events is a run of the world's steps.
pub fn laws_of_nodes()
    ensures only_lawful_facts_are_staged { (n p : ℕ) (facts : List Fact) → IsLawfulNode n p facts }
    ensures nothing_is_due_at_the_end { (s : NodeState) → due (settle s) ≡ None }
    ensures what_is_due_is_done_first { (s : NodeState) (d : Due) → due s ≡ Some d → settle s ≡ settle (carry_out d s) }
    ensures where_nothing_is_due_nothing_happens { (s : NodeState) → due s ≡ None → settle s ≡ s }
    ensures inputs_mark_nothing { (input : Input Message) (s : NodeState) → StaysMarked s (node_step input s) }
    ensures messages_are_backed { (n p : ℕ) (facts : List Fact) → IsTrue (all_fit n p [] facts) → IsTruthfulNode n p facts }
    ensures events_are_steps_of_the_world { (n p : ℕ) (facts : List Fact) → IsTrue (all_fit n p [] facts) → IsWorldlyNode n p facts }
{}

/// Laws of one moment of a node that was opened over facts that fit, and of the event after it: it says only what
/// its marked facts back, its facts fit, it stages only lawful ones, and what leaves it names rounds above 0. What it
/// stages is a decision, or of one of its eight lowest undecided instances.
pub fn laws_of_reached_nodes()
    ensures reached_nodes_are_truthful { (n p : ℕ) (facts : List Fact) (h : Heard) (s : NodeState) → IsReached n p facts h s → IsTruthful p facts h s }
    ensures they_stay_who_they_are { (n p : ℕ) (facts : List Fact) (h : Heard) (s : NodeState) → IsReached n p facts h s → IsItself n p facts s }
    ensures their_facts_fit { (n p : ℕ) (facts : List Fact) (h : Heard) (s : NodeState) → IsReached n p facts h s → IsTrue (all_fit n p [] facts) }
    ensures they_stage_only_lawful_facts { (n p : ℕ) (facts : List Fact) (h : Heard) (s : NodeState) (e : StateEvent) → IsReached n p facts h s → IsProperEvent n e → StagesLawfully n p facts h s e }
    ensures they_open_only_the_lowest { (n p : ℕ) (facts : List Fact) (h : Heard) (s : NodeState) (e : StateEvent) → IsReached n p facts h s → IsProperEvent n e → OpensTheLowest facts s e }
    ensures their_messages_name_rounds { (n p : ℕ) (facts : List Fact) (h : Heard) (s : NodeState) (m : Message) → IsReached n p facts h s → next_leaving s ≡ Some m → (m.from ≡ p) × NamesRounds m.body }
{}

/// Laws of such a node in the world, where its running group is settled by one step and marked by none: each of its
/// events is a run of the world's steps, at this node alone, and tells just what the event tells. It may go down
/// at any moment, and restart over whatever facts the world kept, where these fit.
pub fn laws_of_nodes_in_the_world()
    ensures events_are_steps { (settled : Bool) (n p : ℕ) (facts : List Fact) (h : Heard) (s : NodeState) (e : StateEvent) → IsReached n p facts h s → IsProperEvent n e → LeavesTheGroup e → IsRunInWorld settled n p facts h s e }
    ensures one_step_settles_the_group { (n p : ℕ) (facts : List Fact) (h : Heard) (s : NodeState) → SettlesItsGroup n p facts h s }
    ensures marking_is_no_step { (n p : ℕ) (facts : List Fact) (h : Heard) (s : NodeState) → IsReached n p facts h s → MarksWhatIsSettled n p facts h s }
    ensures putting_back_is_no_step { (n p : ℕ) (facts : List Fact) (h : Heard) (s : NodeState) → PutsBackItsGroup n p facts h s }
    ensures nodes_may_go_down { (settled : Bool) (n p : ℕ) (facts : List Fact) (h : Heard) (s : NodeState) → GoesDown settled n p facts h s }
    ensures nodes_may_restart { (n p : ℕ) (kept staged : List Fact) (count : ℕ) → Restarts n p kept staged count }
    ensures events_happen_at_their_node { (p : ℕ) (s : NodeState) (e : StateEvent) → AreStepsAt p (steps_of_event p s e) }
    ensures events_say_just_that { (p : ℕ) (s : NodeState) (e : StateEvent) → SaysJustThat p s e }
    ensures others_are_left_alone { (q p : ℕ) (w : World) (steps : List Step) → (q ≡ p → ⊥) → AreStepsAt p steps → LeavesAlone q w (after_steps w steps) }
    ensures nodes_left_alone_stay_in_the_world { (settled : Bool) (n q : ℕ) (facts : List Fact) (h : Heard) (s : NodeState) (w v : World) → LeavesAlone q w v → IsInWorld settled n q facts h s w → IsInWorld settled n q facts h s v }
{}

/// The definitions mean what they say: a run in which a node decides, acknowledges and restarts, one that
/// loses a staged fact in a crash and continues, and for each kind of fact one that isn't lawful.
pub fn examples()
    ensures a_node_decides_and_acknowledges { IsRun 1 decides_and_acknowledges }
    ensures what_it_tells { (end_of decides_and_acknowledges).trace ≡ told_by_it }
    ensures a_run_goes_on_after_a_crash { IsRun 1 (stages_and_crashes ++ goes_on) }
    ensures a_crash_loses_a_staged_fact { (end_of (stages_and_crashes ++ goes_on)).kept 0 ≡ Enter 0 first_estimate ∷ [] }
    ensures another_node_may_not_propose { IsProposeOfAnotherUnlawful }
    ensures no_adoption_below_the_stamp { IsAdoptBelowTheStampUnlawful }
    ensures no_decision_without_a_majority { IsDecideWithoutMajorityUnlawful }
    ensures no_estimate_made_up { IsEnterWithMadeUpCommandUnlawful }
{}

/// A run of three nodes, over two rounds. In the first a command is chosen, but its coordinator hears of no
/// acknowledgement. The coordinator of the second has another command, and may propose only the chosen one.
pub fn examples_of_two_rounds()
    ensures two_rounds_are_a_run { IsRun 3 two_rounds }
    ensures the_first_round_chooses { IsChosen 3 (end_of first_round).wire 0 claim_a_x }
    ensures its_coordinator_may_not_decide { IsDecideUnheardUnlawful }
    ensures no_other_command_may_be_proposed { IsProposeOfAnotherCommandUnlawful }
    ensures what_node_0_keeps { (end_of two_rounds).kept 0 ≡ kept_over_two_rounds }
    ensures node_2_decides_the_same { decided_prefix ((end_of two_rounds).kept 2) ≡ claim_a_x ∷ [] }
    ensures the_decided_list_has_it { IsDecidedList 3 (end_of two_rounds).wire (claim_a_x ∷ []) }
{}

/// Runs of three nodes, in one round. A coordinator decides by the acknowledgements of the others alone. A crash
/// between staging and sending loses the fact or keeps it, before anybody heard of it, and the run continues.
pub fn examples_of_three_nodes()
    ensures a_node_decides_by_the_others { IsRun 3 decides_by_the_others }
    ensures it_adopts_nothing { (end_of decides_by_the_others).kept 1 ≡ kept_by_it }
    ensures a_crash_may_lose_a_fact { (end_of (crashes_before_it_tells 0)).kept 0 ≡ [] }
    ensures a_crash_may_keep_it { (end_of (crashes_before_it_tells 1)).kept 0 ≡ Enter 0 first_estimate ∷ [] }
    ensures nobody_had_heard_of_it { (count : ℕ) → (end_of (crashes_before_it_tells count)).wire ≡ [] }
    ensures a_run_goes_on_without_it { IsRun 3 (crashes_before_it_tells 0 ++ enters_anew) }
    ensures a_run_goes_on_with_it { IsRun 3 (crashes_before_it_tells 1 ++ tells_it_now) }
    ensures a_lost_fact_backs_no_message { IsLostEstimateUnlawful }
{}

/// Runs of three nodes, over two instances. One is decided before the instance below it. And one command is decided
/// for both, and counts once.
pub fn examples_of_two_instances()
    ensures instances_are_decided_out_of_order { IsRun 3 decides_out_of_order }
    ensures instance_1_is_chosen_first { IsChosen 3 (end_of decides_instance_1).wire 1 claim_a_y }
    ensures the_list_is_empty_then { IsDecidedList 3 (end_of decides_instance_1).wire [] }
    ensures so_is_the_prefix_of_its_node { decided_prefix ((end_of decides_instance_1).kept 1) ≡ [] }
    ensures the_list_has_both_at_the_end { IsDecidedList 3 (end_of decides_out_of_order).wire (claim_a_x ∷ claim_a_y ∷ []) }
    ensures so_has_the_prefix_of_its_node { decided_prefix ((end_of decides_out_of_order).kept 1) ≡ claim_a_x ∷ claim_a_y ∷ [] }
    ensures a_command_is_decided_twice { IsRun 3 decides_twice }
    ensures the_list_has_it_twice { IsDecidedList 3 (end_of decides_twice).wire (claim_a_x ∷ claim_a_x ∷ []) }
    ensures the_first_gives_the_reply { Contains (end_of decides_twice).trace (Acknowledged 1 first_request Claimed) }
    ensures the_second_binds_nothing { Contains (end_of decides_twice).trace (Reported 1 2 registry_of_one_claim) }
{}

/// The node's definitions mean what they say: a node alone takes a command through the four phases, its
/// estimate waits until its Enter is marked, and then it acknowledges the request. A node that has decided its client's
/// command for a later instance, and knows no other, leaves a gap below it open until another command comes.
pub fn examples_of_nodes()
    ensures it_enters_the_first_round { told_alone.staged ≡ Enter 0 first_estimate ∷ [] }
    ensures its_estimate_waits { next_leaving told_alone ≡ None }
    ensures it_goes_through_the_phases { decided_alone.staged ≡ Enter 0 first_estimate ∷ Propose 0 1 claim_a_x ∷ Adopt 0 1 claim_a_x ∷ Decide 0 claim_a_x ∷ [] }
    ensures its_estimate_leaves_once_marked { next_leaving marked_alone ≡ Some (to_itself (Estimate 0 first_estimate)) }
    ensures it_acknowledges_once_marked { next_acknowledged marked_alone ≡ Some first_request }
    ensures a_gap_stays_where_only_its_command_comes { asked_again.staged ≡ [] }
    ensures another_command_fills_it { asked_by_another.staged ≡ Enter 0 (round_stamp 1 0 claim_a_y) ∷ [] }
{}
