// What `==` says of registers and places.
ghost use Rattle.registers.specs.Equality.{NumbersTold, BankedTold, RegistersTold, PlacesTold};

// The tests that `==` makes hold of two if and only if they are one.
pub fn equality_tells()
    ensures numbers { NumbersTold }
    ensures banked { BankedTold }
    ensures registers { RegistersTold }
    ensures places { PlacesTold }
{}
