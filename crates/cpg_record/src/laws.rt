//! What follows from the definitions. Each function has nothing to do: its contract is the law.

ghost use Rattle.cpg_record.specs.Bounds.{JudgedWithinBounds};
ghost use Rattle.cpg_record.specs.Laws.{MembershipsAreLastingJoins, GroupIsMembership, MembersAfterOneMore, RulesAfterOneMore, DenialChangesNothing, PrefixesAreJudgedAlike, EachEntryIsJudged, EachIsJudgedByThoseBefore, RecordsListTheirMembers, OthersKeepMembers, MembersAreIn, OneMembershipEach, OnceInAGroup};
ghost use Rattle.cpg_record.specs.Nexts.{TellsExactly, GroupsStay, MembersStay, NextIsAtTheCut};
ghost use Rattle.cpg_record.specs.Receiving.{InboxesOnlyGrow, PlacesTellAtMostTwo, ToldInOrder, ReceivesExactly, HearsChangesExactly, HearsEditsExactly, HearsVerdictsExactly};
ghost use Rattle.cpg_record.specs.Reasons.{DeniedListingsNameTheirRule, VerdictsNameWhatDecided};
ghost use Rattle.cpg_record.specs.Showing.{ListingsShowMembers, GroupsWithMembersAreNamed};

/// A connection has a membership in a group exactly where it is in it: an allowed join of it to the group
/// stands somewhere, and no later record ends it.
pub fn memberships_are_lasting_joins()
    ensures { MembershipsAreLastingJoins }
{}

/// Over judged records, the group that is computed for a connection is the one that it is in.
pub fn group_is_membership()
    ensures { GroupIsMembership }
{}

/// An allowed join to the group adds a member, an allowed leave or end takes its connection out.
pub fn members_after_one_more()
    ensures { MembersAfterOneMore }
{}

/// An allowed edit of the group changes its table, with the last place as the id.
pub fn rules_after_one_more()
    ensures { RulesAfterOneMore }
{}

/// A denied entry changes no member list, no table and no connection's group, and its one event is the
/// verdict for its maker.
pub fn denial_changes_nothing()
    ensures { DenialChangesNothing }
{}

/// The records of the first entries are the first records.
pub fn prefixes_are_judged_alike()
    ensures { PrefixesAreJudgedAlike }
{}

/// There is a record for each entry, in their order.
pub fn each_entry_is_judged()
    ensures { EachEntryIsJudged }
{}

/// Each record is the judgement of its entry over the records before it.
pub fn each_is_judged_by_those_before()
    ensures { EachIsJudgedByThoseBefore }
{}

/// A record lists the members of its group with it.
pub fn records_list_their_members()
    ensures { RecordsListTheirMembers }
{}

/// A record changes the members of its own group alone.
pub fn others_keep_members()
    ensures { OthersKeepMembers }
{}

/// A connection is in a group exactly where it is one of its members.
pub fn members_are_in()
    ensures { MembersAreIn }
{}

/// A connection has at most one membership.
pub fn one_membership_each()
    ensures { OneMembershipEach }
{}

/// A process stands at most once in a group.
pub fn once_in_a_group()
    ensures { OnceInAGroup }
{}

/// An inbox over more records begins as it is over the first ones: what was told stays told, in its order.
pub fn inboxes_only_grow()
    ensures { InboxesOnlyGrow }
{}

/// A place tells a connection at most two events, and place 0 none.
pub fn places_tell_at_most_two()
    ensures { PlacesTellAtMostTwo }
{}

/// A connection receives exactly the messages that members of its group were allowed to send while it was
/// in the group.
pub fn receives_exactly()
    ensures { ReceivesExactly }
{}

/// A connection is told exactly the allowed edits of the table of the group that it is in.
pub fn hears_edits_exactly()
    ensures { HearsEditsExactly }
{}

/// A connection is told exactly the verdicts on its own entries.
pub fn hears_verdicts_exactly()
    ensures { HearsVerdictsExactly }
{}

/// A connection is told exactly the changes of the group that it is in, before them or with them: with the
/// members after it, those who left and those who joined.
pub fn hears_changes_exactly()
    ensures { HearsChangesExactly }
{}

/// Over judged entries no group has more than 128 members, no record lists more, and no table has more
/// than 64 rules.
pub fn judged_within_bounds()
    ensures { JudgedWithinBounds }
{}

/// A listing is denied exactly by the rule of the group's table that says so, and never by default.
pub fn denied_listings_name_their_rule()
    ensures { DeniedListingsNameTheirRule }
{}

/// A listing is shown exactly where the group's table lets the asker list it, and shows exactly the processes
/// of the connections that are in the group.
pub fn listings_show_members()
    ensures { ListingsShowMembers }
{}

/// A group is named to an asker exactly where a connection is in it and its table lets the asker list it.
pub fn groups_with_members_are_named()
    ensures { GroupsWithMembersAreNamed }
{}

/// Each entry has exactly the verdict that names what decided it: the first rule that speaks, the right's
/// default, or the state that it met.
pub fn verdicts_name_what_decided()
    ensures { VerdictsNameWhatDecided }
{}

/// Each event is told once: they come by place, and a place's verdict comes before its news.
pub fn told_in_order()
    ensures { ToldInOrder }
{}

/// A place tells a connection something exactly where the connection made its entry, or the entry is allowed
/// with the group that the connection is in before it.
pub fn tells_exactly()
    ensures { TellsExactly }
{}

/// A connection's group stays as long as the connection makes no entry.
pub fn groups_stay()
    ensures { GroupsStay }
{}

/// A group's members stay as long as no allowed entry is of it.
pub fn members_stay()
    ensures { MembersStay }
{}

/// Where a search for a place cuts the ascending list of the places of records that pass a test, the next of
/// them stands.
pub fn next_is_at_the_cut()
    ensures { NextIsAtTheCut }
{}
