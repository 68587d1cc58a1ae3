//! Laws of the definitions, for every list.

ghost use Rattle.std.specs.Prelude.{◌≡◌, ◌++◌, ℕ, List, map, take, Ok, Some};
ghost use Rattle.wire_core.specs.Numbers.{AreOctets};
ghost use Rattle.diameter_avp.specs.declared.fault.AvpFault.{AvpFault};
ghost use Rattle.diameter_avp.specs.Avps.{AvpParts, IsAvps, avp_items, avps_fault, avps_text, readable_avps, read_avps};
ghost use Rattle.diameter_avp.specs.Faults.{HoldUpTo, IsFault, place_of};

/// Octets are read as the AVPs that they are, and as no others.
pub fn one_reading()
    ensures read { (octets : List ℕ) (avps : List AvpParts)
        → IsAvps octets avps → read_avps octets ≡ Ok avps }
    ensures only { (octets : List ℕ) (avps : List AvpParts)
        → AreOctets octets → read_avps octets ≡ Ok avps → IsAvps octets avps }
{}

/// The fault that reading finds is the one that stands behind whole AVPs at its place.
pub fn fault_by_place()
    ensures found { (octets : List ℕ) (fault : AvpFault)
        → AreOctets octets → avps_fault octets ≡ Some fault → IsFault octets fault }
    ensures only { (octets : List ℕ) (fault : AvpFault)
        → IsFault octets fault → avps_fault octets ≡ Some fault }
{}

/// What `avps` gives: the AVPs of a list, and of a list with a fault the AVPs before it and then this one fault.
pub fn items_by_place()
    ensures whole { (octets : List ℕ) (avps : List AvpParts)
        → IsAvps octets avps → avp_items octets ≡ map (λ a. Ok a) avps }
    ensures rotten { (octets : List ℕ) (fault : AvpFault)
        → IsFault octets fault → HoldUpTo octets fault (avp_items octets) }
    ensures readable { (octets : List ℕ) (fault : AvpFault)
        → IsFault octets fault → IsAvps (take (place_of fault) octets) (readable_avps octets) }
{}

/// What is written of AVPs is read as them, wherever any octets are these AVPs.
pub fn written_is_read()
    ensures { (octets : List ℕ) (avps : List AvpParts)
        → IsAvps octets avps → read_avps (avps_text avps) ≡ Ok avps }
{}

/// The text of two lists is the one text and then the other.
pub fn text_by_parts()
    ensures { (first second : List AvpParts)
        → avps_text (first ++ second) ≡ avps_text first ++ avps_text second }
{}
