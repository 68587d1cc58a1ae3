//! Laws of streams, for every list of octets.

ghost use Rattle.std.specs.Prelude.{◌≡◌, ◌++◌, ℕ, List, Option, Ok};
ghost use Rattle.diameter_message.specs.declared.fault.FrameFault.{FrameFault};
ghost use Rattle.diameter_message.specs.Message.{parts_of, read_message};
ghost use Rattle.diameter_message.specs.Stream.{IsFrame, Stream};
ghost use Rattle.diameter_message.specs.Framing.{FramerParts, StandsFor, messages_of, rest_of, stream_fault};

/// Octets are cut in one way.
pub fn one_stream()
    ensures cut { (octets : List ℕ)
        → Stream octets (messages_of octets) (rest_of octets) (stream_fault octets) }
    ensures only { (octets : List ℕ) (messages : List (List ℕ)) (rest : List ℕ)
        (fault : Option FrameFault)
        → Stream octets messages rest fault
        → (messages_of octets ≡ messages) × (rest_of octets ≡ rest)
        × (stream_fault octets ≡ fault) }
{}

/// What a framer has given is the beginning of what its stream holds.
pub fn given_are_first()
    ensures { (f : FramerParts) (octets : List ℕ) (given : List (List ℕ)) → StandsFor f octets given
        → (more : List (List ℕ)) × (messages_of octets ≡ given ++ more) }
{}

/// What is cut off a stream is read as a message.
pub fn frames_are_read()
    ensures { (octets : List ℕ) → IsFrame octets → read_message octets ≡ Ok (parts_of octets) }
{}
