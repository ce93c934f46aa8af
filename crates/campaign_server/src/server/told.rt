//! What a server tells of itself.

ghost use Rattle.std.specs.Prelude.{◌≡◌, length};
ghost use Rattle.frag_encoder.specs.Encoding.{nb_frag_of, padding_of};

use super::Server;
use crate::plan::Plan;

impl Server {
    /// Returns its plan.
    pub fn plan(&self) -> &Plan
        ensures { result.now ≡ self.now.plan }
    {
        &self.plan
    }

    /// Returns the image that is sent.
    pub fn image(&self) -> &[u8]
        ensures { result.now ≡ self.now.image }
    {
        self.encoder.file()
    }

    /// Returns the bytes of a fragment.
    pub fn frag_size(&self) -> u8
        ensures { result ≡ self.now.plan.frag_size }
    {
        self.plan.frag_size
    }

    /// Returns the number of uncoded fragments, 1 to 4,096.
    pub fn nb_frag(&self) -> u16
        ensures { result ≡ nb_frag_of (length self.now.image) self.now.plan.frag_size }
    {
        self.encoder.nb_frag()
    }

    /// Returns the number of zero bytes that fill the last uncoded fragment up.
    pub fn padding(&self) -> u8
        ensures { result ≡ padding_of (length self.now.image) self.now.plan.frag_size }
    {
        self.encoder.padding()
    }

    /// Returns the number of coded fragments that follow the uncoded ones, 0 to 512.
    pub fn parity(&self) -> u16
        ensures { result ≡ self.now.plan.parity }
    {
        self.plan.parity
    }

    /// Returns the number of the fragment that `next_fragment` sends next, from 1; where all were sent, one more than that of the
    /// last.
    pub fn fragment_number(&self) -> u16
        ensures { result ≡ self.now.next }
    {
        self.next
    }

    /// Returns the group's next frame count, from its MIN to its MAX, where none is left; 0 without a group.
    pub fn frame_count(&self) -> u32
        ensures { result ≡ self.now.count }
    {
        self.count
    }
}
