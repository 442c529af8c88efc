//! What holds of all images.

ghost use Rattle.std.specs.Prelude.{◌≡◌, ◌++◌, ℕ, List, Ok, true};
ghost use Rattle.afs_num.specs.declared.vnodes.Vnode.{Vnode};
ghost use Rattle.afs_xdr.specs.Words.{AreWords};
ghost use Rattle.spec_ideal.specs.VnodeImage.{FitsImage, image, image_at, image_words, kind_fits};

/// An image is read again, whatever follows.
pub fn images_are_read_again()
    ensures { (v : Vnode) (rest : List ℕ) → FitsImage v → AreWords (image_words v) → kind_fits v.vnode v.kind ≡ true → image_at (image v ++ rest) ≡ Ok (v, rest) }
{}
