// Whether lent octets are a desk's (document 01, "The desk": "Octets not in that form get 20, before all else").
#![tactic(auto)]

ghost use Rattle.std.specs.Prelude.{◌≡◌};
ghost use Rattle.desk_test.specs.Lent.{formed};

#[tactic(auto, using(desk_octets::proofs::Facts::parts), unfolding(crate::specs::Lent::formed, crate::specs::Lent::is_sound))]
pub fn is_desk(desk: &[u8]) -> bool
    ensures { result ≡ formed desk.now }
{
    if table_test::is_canonical(desk) {
        let seats = seats_test::seats_are_sound(desk);
        let floor = core_test::core_is_sound(desk);
        seats & floor
    } else {
        false
    }
}
