ghost use Rattle.std.specs.Prelude.{◌≡◌, ◌+◌, ◌≤◌, length};
ghost use Rattle.cards.specs.Format.{sealed};
ghost use Rattle.cards.specs.Plain.{overwrite};

use crate::writer::Writer;
use cards::{HEAD_BYTES, record_data, record_nonce};
use sealer::Sealer;

impl<C: Sealer> Writer<C> {
    // Seals the next record under its head, and writes it at its place.
    pub(crate) fn put(&self, head: &[u8; 9], body: &[u8], medium: &mut [u8])
        requires short { length body.now ≤ 4096 }
        requires room { self.now.place + (9 + length body.now + C.meaning.width)
            ≤ length medium.old }
        ensures { medium.new ≡ overwrite self.now.place
            (sealed C.meaning self.now.key self.now.header self.now.count head.now body.now)
            medium.old }
    {
        let data = record_data(&self.header, head);
        let nonce = record_nonce(&self.header, self.count as u64);
        let (_, rest) = medium.split_at_mut(self.place);
        let (head_part, rest) = rest.split_at_mut(HEAD_BYTES);
        let (body_part, rest) = rest.split_at_mut(body.len());
        let (tag_part, _) = rest.split_at_mut(C::WIDTH);
        head_part.copy_from_slice(head);
        // None of the cipher's questions can get a no: key and nonce are arrays, data has 22 bytes, the body
        // at most 4,096, and both parts have the lengths that are asked for.
        let _ = C::seal(&self.key, &nonce, &data, body, body_part, tag_part);
    }
}
