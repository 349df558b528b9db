//! Laws of growing plans. Each is the contract of an empty function; a caller that calls it may use
//! its clauses.
ghost use Rattle.std.specs.Prelude.{◌≡◌, ℕ, Some, None, List, [], length};
ghost use Rattle.vz_frame.specs.declared.message.ClientFile.{ClientFile};
ghost use Rattle.vz_frame.specs.declared.message.Message.{Message};
ghost use Rattle.vz_rules.specs.declared.entry.Entry.{Entry};
ghost use Rattle.vz_rules.specs.declared.entry.Event.TheVariants as event;
ghost use Rattle.vz_rules.specs.Plan.{Plan, IsPlan};
ghost use Rattle.vz_rules.specs.World.{World, Client, client_at, file_of, next_message};
ghost use Rattle.vz_rules.specs.Step.{outcome_of, world, step_in, entry_in, NamesClient, Legal};
ghost use Rattle.vz_rules.specs.Accounts.{answer_for};
ghost use Rattle.vz_rules.specs.Kept.{KeepsPlan};
ghost use Rattle.vz_sessions.specs.Grown.{grown, NeverMisses, GoesOn, AreSettled, HasRoom, SameFrames};

/// If a client sends one message more, a history that was legal stays legal and leads to the same
/// world, and what it draws and what is outstanding is the same. The one condition is that no
/// entry told this client that all its messages were taken.
pub fn sent_messages_change_nothing()
    ensures legal { (p : Plan) (h : List Entry) (c : ℕ) (m : Message)
        → NamesClient p (event.Client c) → NeverMisses c h → Legal p h → Legal (grown p c m) h }
    ensures world { (p : Plan) (h : List Entry) (c : ℕ) (m : Message)
        → NamesClient p (event.Client c) → NeverMisses c h → Legal p h
        → world (grown p c m) h ≡ world p h }
    ensures frames { (p : Plan) (h : List Entry) (c : ℕ) (m : Message)
        → NamesClient p (event.Client c) → NeverMisses c h → Legal p h
        → SameFrames p (grown p c m) h }
    ensures plan { (p : Plan) (c : ℕ) (m : Message) → IsPlan p
        → ((f : ClientFile) → file_of p c ≡ Some f → HasRoom f m) → IsPlan (grown p c m) }
    ensures keeps { (p : Plan) (w : World) (c : ℕ) (m : Message) → KeepsPlan p w
        → KeepsPlan (grown p c m) w }
{}

ghost use Rattle.vz_sessions.specs.Worked.{silent_plan, told_too_early};

/// The conditions are needed, in every history: a legal history that is also one of the plan with a
/// message more tells this client nowhere that all its messages were taken, and a file whose longer
/// form is of a plan had room for the message. A worked case: a client that has sent nothing is
/// told so, and with any message of it that history is not legal.
pub fn conditions_are_needed()
    ensures never { (p : Plan) (h : List Entry) (c : ℕ) (m : Message) → IsPlan p
        → NamesClient p (event.Client c) → Legal p h → Legal (grown p c m) h → NeverMisses c h }
    ensures room { (p : Plan) (c : ℕ) (f : ClientFile) (m : Message) → IsPlan (grown p c m)
        → file_of p c ≡ Some f → HasRoom f m }
    ensures worked { IsPlan silent_plan × Legal silent_plan told_too_early
        × ((m : Message) → Legal (grown silent_plan 1 m) told_too_early → ⊥) }
{}

/// The same is true of any plan that goes on where another ends, if each entry that told a client
/// that all its messages were taken is of a client that sends no more.
pub fn plans_go_on()
    ensures grown { (p : Plan) (c : ℕ) (m : Message) → GoesOn p (grown p c m) }
    ensures legal { (p q : Plan) (h : List Entry) → GoesOn p q → AreSettled p q h → Legal p h
        → Legal q h }
    ensures world { (p q : Plan) (h : List Entry) → GoesOn p q → AreSettled p q h → Legal p h
        → world q h ≡ world p h }
    ensures frames { (p q : Plan) (h : List Entry) → GoesOn p q → AreSettled p q h → Legal p h
        → SameFrames p q h }
{}

/// If a client took all its earlier messages, its next event answers the message that it sent.
pub fn sent_messages_are_answered()
    ensures step { (p : Plan) (w : World) (c : ℕ) (x : Client) (f : ClientFile) (m : Message)
        → client_at w c ≡ Some x → file_of p c ≡ Some f → x.taken ≡ length f.messages
        → step_in (grown p c m) w (event.Client c) ≡ outcome_of [] (answer_for w x m) }
    ensures entry { (p : Plan) (w : World) (c : ℕ) (x : Client) (f : ClientFile) (m : Message)
        → client_at w c ≡ Some x → file_of p c ≡ Some f → x.taken ≡ length f.messages
        → entry_in (grown p c m) w (event.Client c) ≡ record {
          event = event.Client c;
          reply = (outcome_of [] (answer_for w x m)).reply;
          effects = (outcome_of [] (answer_for w x m)).effects;
        } }
    ensures idle { (p : Plan) (h : List Entry) (c : ℕ) (x : Client) (m : Message) → IsPlan p
        → NamesClient p (event.Client c) → client_at (world p h) c ≡ Some x
        → next_message p x ≡ None
        → step_in (grown p c m) (world p h) (event.Client c)
        ≡ outcome_of [] (answer_for (world p h) x m) }
{}

ghost use Rattle.std.specs.Prelude.{slice_get};
ghost use Rattle.vz_rules.specs.Accounts.{message_at, takes, taken_in, IsTaking};
ghost use Rattle.vz_sessions.specs.Session.{Session, Deed, Does, after_deeds, after_all, machine_of, IsAllowed, AreAllowed, IsSession};

/// A message that was sent stands behind all earlier ones of its client, and stays at its place
/// whatever is sent later. While a message waits, the client's next event answers it, whichever
/// client sends one more. So in a session each client's messages are taken once each, in the order
/// in which they were sent.
pub fn waiting_messages_are_taken()
    ensures place { (p : Plan) (c : ℕ) (f : ClientFile) (m : Message) → file_of p c ≡ Some f
        → message_at (grown p c m) c (length f.messages) ≡ Some m }
    ensures stays { (p : Plan) (c d k : ℕ) (m n : Message) → message_at p c k ≡ Some n
        → message_at (grown p d m) c k ≡ Some n }
    ensures waits { (p : Plan) (w : World) (c d : ℕ) (x : Client) (m n : Message)
        → client_at w c ≡ Some x → next_message p x ≡ Some n
        → step_in (grown p d m) w (event.Client c) ≡ outcome_of [] (answer_for w x n) }
    ensures order { (s : Session) (c k : ℕ) (e : Entry) → IsSession s
        → slice_get (takes s.told c) k ≡ Some e → IsTaking s.plan s.told c k e }
    ensures count { (s : Session) (c : ℕ) → IsSession s
        → taken_in (world s.plan s.told) c ≡ length (takes s.told c) }
{}

/// A session in which clients send messages and events happen, in any order, has a legal history
/// of the plan of all messages that were sent, and the machine that it leads to is in the world of
/// that plan and that history. An event of a client that has a message left is allowed, and each
/// event of the display.
pub fn sessions_are_runs()
    ensures kept { (s : Session) (ds : List Deed) → IsSession s → AreAllowed s ds
        → IsSession (after_deeds s ds) }
    ensures machine { (s : Session) (ds : List Deed) → IsSession s → AreAllowed s ds
        → after_all (machine_of s) ds ≡ machine_of (after_deeds s ds) }
    ensures opening { (p : Plan) → IsPlan p → IsSession (record { plan = p; told = [] }) }
    ensures clients { (s : Session) (c : ℕ) (x : Client) (m : Message)
        → NamesClient s.plan (event.Client c) → client_at (world s.plan s.told) c ≡ Some x
        → next_message s.plan x ≡ Some m → IsAllowed s (Does (event.Client c)) }
    ensures display { (s : Session) → IsAllowed s (Does event.Begin) × IsAllowed s (Does event.Draw)
        × IsAllowed s (Does event.Done) × IsAllowed s (Does event.Over) }
{}
