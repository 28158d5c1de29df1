//! Laws about the requests, the state texts and the children in the calls to a host.

ghost use Rattle.std.specs.Prelude.{◌≡◌, ◌+◌, ◌++◌, ℕ, IsTrue, List, [], length};
ghost use Rattle.supervisor.specs.EdgeWords.{remainder_of, Goal, unreaped_children, HostCall, CallsLeaveHeld, HeldChildren};
ghost use Rattle.supervisor.specs.Held.{AreNew, unreaped_in_order};
ghost use Rattle.supervisor.specs.Point.{Point, point_after, has_trace};
ghost use Rattle.supervisor.specs.CallsLead.{AreTexts, are_carried, is_allowed};
ghost use Rattle.supervisor.specs.Requests.{Brings};
ghost use Rattle.supervisor.specs.Texts.{are_given_back, texts_in};

/// States in its contract which requests the calls add to the trace. The function itself does nothing.
///
/// They are exactly the requests of the blocks that the bytes read complete, together with the bytes before them, in
/// order. The bytes left over are those left over of all bytes together.
pub fn law_of_requests()
    ensures { (calls : List HostCall) (before : List ℕ) (p : Point) → p.over ≡ remainder_of before
        → Brings before calls p }
{}

/// States in its contract that the trace of calls can be determined in two parts: the later calls continue where the
/// earlier ones end. If the answers to all calls were possible, those to the earlier ones were. The function itself
/// does nothing.
pub fn law_of_parts()
    ensures point { (later earlier : List HostCall) (p : Point)
        → point_after (later ++ earlier) p ≡ point_after later (point_after earlier p) }
    ensures in_place { (goal : Goal) (later earlier : List HostCall) (p : Point)
        → IsTrue (has_trace goal later (point_after earlier p)) → IsTrue (has_trace goal earlier p)
        → IsTrue (has_trace goal (later ++ earlier) p) }
    ensures possible { (goal : Goal) (calls : List HostCall) (p : Point)
        → IsTrue (is_allowed goal (point_after calls p).past) → IsTrue (is_allowed goal p.past) }
    ensures carried { (later earlier : List HostCall) (p : Point)
        → IsTrue (are_carried (later ++ earlier) p)
        → IsTrue (are_carried later (point_after earlier p)) × IsTrue (are_carried earlier p) }
{}

/// States a law in its contract about the state texts that init hands over to the host. The function itself does
/// nothing.
///
/// Each text is of the next generation. Suppose that each represents init's state, and that the host returns it
/// unchanged, cut short, or replaced by an earlier text. Then the host returned the texts in a way that a turn can
/// handle.
pub fn law_of_texts()
    ensures generation { (calls : List HostCall) (p : Point)
        → (point_after calls p).generation ≡ p.generation + length (texts_in calls) }
    ensures carried { (goal : Goal) (calls : List HostCall) (p : Point) → AreTexts goal calls p
        → IsTrue (are_given_back calls) → IsTrue (are_carried calls p) }
{}

/// States a law in its contract about a host that holds its children and never replies `Later`. The function itself
/// does nothing.
///
/// The calls begin at a trace without unreaped children. If up to some call no child is born with the number of a child
/// that the host holds at the time, then each answer up to that call was possible, whatever the later answers; and the
/// host holds the unreaped children of the trace.
pub fn law_of_children()
    ensures possible { (goal : Goal) (later earlier : List HostCall) (held : HeldChildren)
        (p : Point) → unreaped_children p.past ≡ [] → CallsLeaveHeld (later ++ earlier) held
        → AreNew earlier → IsTrue (is_allowed goal p.past)
        → IsTrue (is_allowed goal (point_after earlier p).past) }
    ensures held { (calls : List HostCall) (held : HeldChildren) (p : Point)
        → unreaped_children p.past ≡ [] → CallsLeaveHeld calls held
        → held ≡ unreaped_in_order (point_after calls p).past }
{}
