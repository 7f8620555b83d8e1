//! Laws of the definitions. These functions do nothing: their contracts are the laws.

ghost use Rattle.std.specs.Prelude.{◌≡◌, ℕ, true};
ghost use Rattle.proto_model.specs.Numbered.{NumberedProtocol};
ghost use Rattle.proto_model.specs.Pairs.{goes_up, goes_down};
ghost use Rattle.proto_model.specs.Pairs.{is_pair, paired_with, reply_of, replies_of};
ghost use Rattle.proto_model.specs.declared.mode.Mode.{Mode};
ghost use Rattle.proto_model.specs.declared.mode.Mode.TheVariants.{Plain};
ghost use Rattle.request_reply.specs.Pairs.{ArePairs, replies_in};
ghost use Rattle.request_reply.specs.declared.pairs.Pairs.{Pairs};

/// A message is paired with one other at most.
pub fn one_reply()
    ensures { (protocol : NumberedProtocol) (m p : ℕ)
        → is_pair protocol m p ≡ true → paired_with protocol m ≡ Some p }
{}

/// The reply of a message goes the other way.
pub fn reply_goes_back()
    ensures up { (protocol : NumberedProtocol) (mode : Mode) (m p : ℕ)
        → reply_of protocol mode m ≡ Some p → goes_up protocol m ≡ true
        → goes_down protocol p ≡ true }
    ensures down { (protocol : NumberedProtocol) (mode : Mode) (m p : ℕ)
        → reply_of protocol mode m ≡ Some p → goes_down protocol m ≡ true
        → goes_up protocol p ≡ true }
{}

/// The pairs of a protocol are the replies of all its messages, kept apart by direction.
pub fn replies_are_pairs()
    ensures { (protocol : NumberedProtocol) (mode : Mode) (pairs : Pairs)
        → ArePairs protocol mode pairs → replies_in pairs ≡ replies_of protocol mode }
{}

/// In mode plain no message has a reply.
pub fn plain_pairs_nothing()
    ensures { (protocol : NumberedProtocol) (m : ℕ) → reply_of protocol Plain m ≡ None }
{}
