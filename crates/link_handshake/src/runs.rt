//! What holds of a link however long it runs: whatever its ends do, in whatever order, and whatever is lost, as long as each number that
//! is chosen is a new one.
ghost use Rattle.std.specs.Prelude.{◌≡◌, ◌≢◌, ◌≤◌, ◌∷◌, ◌++◌, [], ℕ, List, Some, true, false};
ghost use Rattle.std.specs.List.{AllByRecursion};
ghost use Rattle.netchange_core.specs.declared.message.Message.{Message};
ghost use Rattle.link_handshake.specs.Ends.{heard_line};
ghost use Rattle.link_handshake.specs.Events.{IsInStep, IsReached, acts, greeting_round, on_their_way, run};
ghost use Rattle.link_handshake.specs.Events.Action.{Hears};
ghost use Rattle.link_handshake.specs.Links.{IsOf, IsUntold, Line, Link, said_of};
ghost use Rattle.link_handshake.specs.Links.Line.{greets, tells};
ghost use Rattle.link_handshake.specs.declared.ends.End.{End};
ghost use Rattle.link_handshake.specs.declared.greeting.Greeting.{Greeting};
ghost use Rattle.link_handshake.specs.declared.said.Said.TheVariants as said;

/// What an end takes is a message that the other end wrote in the attempt that this one is in session with.
pub fn messages_are_of_the_session()
    ensures here { (l : Link) (x : Line) (rest : List Line) (next : ℕ) (m : Message) → IsReached l → l.back.coming ≡ x ∷ rest →
        (heard_line l.here (said_of x) next).taken ≡ Some m → x ≡ tells l.here.heard m }
    ensures there { (l : Link) (x : Line) (rest : List Line) (next : ℕ) (m : Message) → IsReached l → l.forth.coming ≡ x ∷ rest →
        (heard_line l.there (said_of x) next).taken ≡ Some m → x ≡ tells l.there.heard m }
{}

/// An end comes up on a greeting that repeats the number of its present attempt, and on no other. Two ends that are up are in session
/// with one another's present attempts. And where an end is up, nothing that it wrote in an older attempt is on its way any more.
pub fn sessions_answer_present_attempts()
    ensures answer { (e : End) (g : Greeting) (next : ℕ) → (heard_line e (said.Greeting g) next).end.is_up ≡ true →
        (g.heard ≡ (heard_line e (said.Greeting g) next).end.number) × ((heard_line e (said.Greeting g) next).end.heard ≡ g.number) }
    ensures only { (e : End) (x : Line) (next : ℕ) → e.is_up ≡ false → (heard_line e (said_of x) next).end.is_up ≡ true →
        (g : Greeting) × (x ≡ greets g) × (g.heard ≡ e.number) }
    ensures both { (l : Link) → IsReached l → l.here.is_up ≡ true → l.there.is_up ≡ true →
        (l.here.heard ≡ l.there.number) × (l.there.heard ≡ l.here.number) }
    ensures here { (l : Link) → IsReached l → l.here.is_up ≡ true → AllByRecursion (IsOf l.here.number) l.forth.coming }
    ensures there { (l : Link) → IsReached l → l.there.is_up ≡ true → AllByRecursion (IsOf l.there.number) l.back.coming }
{}

/// Where a greeting is the next line that an end hears, no message of its attempt was skipped, taken or lost before.
pub fn no_message_is_skipped()
    ensures here { (l : Link) (g : Greeting) (rest : List Line) → IsReached l → l.back.coming ≡ greets g ∷ rest →
        AllByRecursion (IsUntold g.number) l.back.gone }
    ensures there { (l : Link) (g : Greeting) (rest : List Line) → IsReached l → l.forth.coming ≡ greets g ∷ rest →
        AllByRecursion (IsUntold g.number) l.forth.gone }
{}

/// Where nothing is on its way, whatever the ends are in, and one of them has no session and greets again, once or twice, both are up with
/// one another once all that this brings about is heard. The number of the attempt that may begin meanwhile is not the one that this
/// end heard last.
pub fn ends_meet()
    ensures { (l : Link) (next : ℕ) → l.forth.coming ≡ [] → l.back.coming ≡ [] → l.here.is_up ≡ false → l.here.heard ≢ next →
        IsInStep (run (greeting_round next ++ greeting_round next) l) }
{}

/// Where an end hears a greeting, there are no more greetings on their way than before.
pub fn greetings_do_not_multiply()
    ensures { (l : Link) (g : Greeting) (rest : List Line) (next : ℕ) → l.back.coming ≡ greets g ∷ rest →
        on_their_way (acts l (Hears next)) ≤ on_their_way l }
{}
