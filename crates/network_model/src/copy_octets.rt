ghost use Rattle.std.specs.Prelude.{◌≤◌, length, option_map, IfSome};
ghost use Rattle.network_model.specs.Network.{Network};
ghost use Rattle.network_model.specs.Run.{Run};
ghost use Rattle.network_model.specs.Truth.{TellsTruth, copy_of};

/// What has the octets of each copy of a run, as a world has.
pub trait CopyOctets {
    ghost network: { Self → Network };

    ghost run: { Self → Run };

    /// The octets of the copy that the event of this tag made, or None where it made none.
    fn octets(&self, copy: u64) -> Option<&[u8]>
        ensures truth { TellsTruth (copy_of (network self.now) (run self.now) copy) (option_map (λ octets. octets.now) result) }
        // A Delay_Resp is the longest message of a run.
        ensures fits { IfSome result (λ octets. length octets.now ≤ 54) };
}
