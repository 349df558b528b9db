//! Laws of the hierarchy: each is the contract of a function with an empty body.
ghost use Rattle.std.specs.Prelude.{◌≡◌, ℕ, slice_get, true, Some, None, List, map};
ghost use Rattle.std.specs.Option.{option_and_then};
ghost use Rattle.vz_ids.specs.declared.FrameSinkId.{FrameSinkId};
ghost use Rattle.vz_rules.specs.Plan.{Plan};
ghost use Rattle.vz_rules.specs.World.{World, Client, client_at, change_client, first_sink, opening};
ghost use Rattle.vz_rules.specs.Messages.{hierarchy_refusal};
ghost use Rattle.vz_rules.specs.Step.{is_attached, deliver};
ghost use Rattle.vz_sinks.specs.Relating.{refusal_in, refusal_of, attached_in, delivered_to, standing, take_one, close_one, seat_of, seats_from, related_in};

/// A relation is refused exactly as the machine's rules refuse it, and for the same reason.
pub fn refusals_are_those()
    ensures { (w : World) (c : Client) (n : ℕ) (first parent child : FrameSinkId)
        → client_at w n ≡ Some c
        → hierarchy_refusal w c parent child
        ≡ option_and_then refusal_of (refusal_in (related_in first w) n parent child) }
{}

/// The attached clients are those of the machine's state, and a begin-frame is delivered to the
/// same clients.
pub fn begin_frames_are_those()
    ensures attached { (p : Plan) (w : World) (c : Client) (n : ℕ) (first : FrameSinkId)
        → first_sink p ≡ Some first → client_at w n ≡ Some c
        → attached_in (related_in first w) n ≡ is_attached p w c }
    ensures delivered { (p : Plan) (w : World) (n : ℕ) (first : FrameSinkId)
        → first_sink p ≡ Some first
        → map seat_of (map (deliver p w n) w.clients) ≡ delivered_to (related_in first w) n }
    ensures stands { (w : World) (c : Client) (n : ℕ) → client_at w n ≡ Some c
        → standing (map seat_of w.clients) n ≡ c.delivered }
    ensures taken { (w : World) (n : ℕ)
        → map seat_of (change_client (λ x. record x { delivered = None }) n w.clients)
        ≡ map (take_one n) (map seat_of w.clients) }
    ensures closed { (w : World) (n : ℕ)
        → map seat_of (change_client (λ x. record x { closed = true }) n w.clients)
        ≡ map (close_one n) (map seat_of w.clients) }
{}

/// Before the first step the clients are those of the files' sinks, numbered from 1.
pub fn openings_are_those()
    ensures seats { (p : Plan)
        → map seat_of (opening p).clients ≡ seats_from 1 (map (λ f. f.sink) p.files) }
    ensures first { (p : Plan) → first_sink p ≡ slice_get (map (λ f. f.sink) p.files) 0 }
{}
