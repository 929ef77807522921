// Facts of the definitions that others build on.
ghost use Rattle.packet.specs.Facts.{Hold, facts};

pub fn hold()
    ensures { Hold facts }
{}
