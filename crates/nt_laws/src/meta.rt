//! What the definitions of meta topics amount to.

ghost use Rattle.std.specs.Prelude.{◌≡◌, ℕ, false, List, ◌∷◌};
ghost use Rattle.nt_laws.specs.Touched.{touched, touched_by_act, untouched};
ghost use Rattle.nt_rules.specs.declared.act.Act.{Act};
ghost use Rattle.nt_rules.specs.declared.act.Entry.{Entry};
ghost use Rattle.nt_rules.specs.declared.roster.Roster.{Roster};
ghost use Rattle.nt_rules.specs.declared.start.Start.{Start};
ghost use Rattle.nt_rules.specs.history.Answer.{Legal, is_used};
ghost use Rattle.nt_rules.specs.history.Metas.{metas_now, roster_now};
ghost use Rattle.nt_rules.specs.history.Now.{now_of};
ghost use Rattle.nt_rules.specs.history.State.{acted, open_metas};
ghost use Rattle.nt_rules.specs.history.Step.{ServerState, Represents};
ghost use Rattle.nt_rules.specs.meta.Meta.{named_in};
ghost use Rattle.nt_rules.specs.meta.Order.{ordered};
ghost use Rattle.nt_rules.specs.meta.Packing.{fitting};
ghost use Rattle.nt_rules.specs.meta.Rosters.{IsInOrder, IsRoster, AreById, AreFound, AreFoundInOrder, IsLongestPrefix};

/// Of a server's roster the meta topics stand by rising id, so that no two share one, and each is
/// the one that is found by its name; so also with the rows in order.
pub fn metas_are_apart()
    ensures by_id { (r : Roster) → IsRoster r → AreById r }
    ensures found { (r : Roster) → IsRoster r → AreFound r }
    ensures ordered { (r : Roster) → IsRoster r → AreFoundInOrder r }
{}

/// Rows that are in order are told as they stand.
pub fn rows_in_order_stay()
    ensures { (r : Roster) → IsInOrder r → ordered r ≡ r }
{}

/// Of the elements of a list the longest prefix is kept that has at most 1,048,576 bytes.
pub fn the_longest_prefix_is_kept()
    ensures { (elements : List (List ℕ)) → IsLongestPrefix elements (fitting 0 elements) }
{}

/// An entry of a lawful history leaves each meta topic as it was, but for those that it touches:
/// one of another name lives on with its id and its bytes, or didn't live and doesn't. So does an
/// act with the meta topics of what a server keeps.
pub fn other_metas_stay()
    ensures entry { (start : Start) (past : List Entry) (e : Entry) → Legal start (e ∷ past)
        → untouched (touched (now_of start past) e) (metas_now (now_of start (e ∷ past)))
        ≡ untouched (touched (now_of start past) e) (metas_now (now_of start past)) }
    ensures named { (start : Start) (past : List Entry) (e : Entry) (name : List ℕ)
        → Legal start (e ∷ past) → is_used (touched (now_of start past) e) name ≡ false
        → named_in (roster_now (now_of start (e ∷ past))) name
        ≡ named_in (roster_now (now_of start past)) name }
    ensures act { (server : ServerState) (start : Start) (past : List Entry) (worker now : ℕ)
        (a : Act) → Represents server start past
        → untouched (touched_by_act server.state worker a)
        (open_metas (acted server.state worker now a).opens (acted server.state worker now a).topics)
        ≡ untouched (touched_by_act server.state worker a)
        (open_metas server.state.opens server.state.topics) }
{}
