//! How long walks are.
ghost use Rattle.util_interner.specs.KeyTables.{number_bits, byte_bits};
ghost use Rattle.util_interner.specs.ShortWalks.{AreWalksShort};

/// The walk of a key passes at most as many other keys as its hash and its numbers have bits, and those that tell where it ends,
/// whoever picks the keys; and so it is with names.
pub fn walks_are_short()
    ensures keys { AreWalksShort number_bits }
    ensures names { AreWalksShort byte_bits }
{}
