//! Several values of one form.

ghost use Rattle.std.specs.Prelude.{◌≡◌, ◌++◌, OnOk};
ghost use Rattle.std.specs.List.{flat_map, AllByRecursion};
ghost use Rattle.spec_records.specs.Forms.{many_at, list_form};
ghost use Rattle.afs_record.specs.Reading.{ReadsForm};

use crate::faults::RecordFault;
use crate::forms::Form;
use afs_num::sequences::Sequence;
use afs_num::types::Mem;
use afs_xdr::reading::Reader;
use afs_xdr::writing::Writer;
use std::alloc::Global;
use std::marker::PhantomData;

/// So many values, one behind the other. Memory is taken for those alone that are there.
pub(crate) fn read_many<F: Form>(
    alloc: Global,
    r: &mut Reader,
    count: usize,
) -> Result<Sequence<F::Value>, RecordFault>
    ensures { ReadsForm (many_at F.form.at count) (λ s. s) r.old r.new result }
{
    let mut items = Sequence::new(alloc);
    for _ in 0..count {
        let item = F::read(alloc, r)?;
        items.push(item)?;
    }
    Ok(items)
}

/// Appends values, one behind the other.
pub(crate) fn write_many<F: Form>(items: &[F::Value], w: &mut Writer) -> Mem<()>
    requires { AllByRecursion F.form.Fits items.now }
    ensures { OnOk result (w.new ≡ w.old ++ flat_map F.form.spelled items.now) }
{
    for item in items {
        F::write(item, w)?;
    }
    Ok(())
}

/// A count, and so many values of this form.
pub struct ListOf<F> {
    form: PhantomData<F>,
}

impl<F: Form> Form for ListOf<F> {
    type Value = Sequence<F::Value>;

    ghost form = { list_form F.form };

    fn read(alloc: Global, r: &mut Reader) -> Result<Sequence<F::Value>, RecordFault> {
        let count = r.word()?;
        read_many::<F>(alloc, r, count as usize)
    }

    fn write(value: &Sequence<F::Value>, w: &mut Writer) -> Mem<()> {
        w.word(value.len() as u32)?;
        write_many::<F>(value.as_slice(), w)
    }
}
