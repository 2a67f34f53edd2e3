//! The store ends, and spends all that it holds.
ghost use Rattle.std.specs.Prelude.{◌≡◌, not, IsTrue};
ghost use Rattle.std.specs.List.{list_all};
ghost use Rattle.buffer_pool.specs.Fences.{made};
ghost use Rattle.device_rows.specs.Jobs.{has_job_out};
ghost use Rattle.device_rows.specs.Kept.{have_made_fences};
ghost use Rattle.device_core.specs.Unpacked.{is_made_at, is_made_held, is_made_row};

use crate::buffers::Held;
use crate::store::Store;
use buffer_pool::Fences;
use cam_types::Four;
use device_rows::Row;

impl Store {
    /// Spends all that it holds. No job is out, and the fences of buffers that wait were made by these.
    pub fn scrap(self, fences: &mut Fences)
        requires home { IsTrue (list_all (λ row. not (has_job_out row)) self.rows) }
        requires made { IsTrue (list_all (have_made_fences (made fences.old)) self.rows) }
        ensures { fences.new ≡ fences.old }
    {
        let Store {
            plan: _,
            mut table,
            slots: _,
            spares: _,
        } = self;
        while let Some(row) = table.pop() {
            scrap_row(row, fences);
        }
        table.close();
    }
}

/// Spends the buffers and waiters that are held for a row.
fn scrap_row(row: Row<Held>, fences: &mut Fences)
    requires { IsTrue (is_made_row (made fences.old) row) }
    ensures { fences.new ≡ fences.old }
{
    let Row {
        view: _,
        parked: Four { a, b, c, d },
    } = row;
    scrap_at(a, fences);
    scrap_at(b, fences);
    scrap_at(c, fences);
    scrap_at(d, fences);
}

fn scrap_at(held: Option<Held>, fences: &mut Fences)
    requires { IsTrue (is_made_at (made fences.old) held) }
    ensures { fences.new ≡ fences.old }
{
    match held {
        Some(held) => scrap_held(held, fences),
        None => {}
    }
}

/// Spends a buffer, with the waiter of one that waits.
fn scrap_held(held: Held, fences: &mut Fences)
    requires { IsTrue (is_made_held (made fences.old) held) }
    ensures { fences.new ≡ fences.old }
{
    let _block = match held {
        Held::Waiting(waiting) => waiting.into_parked().into_block(fences),
        Held::Filled(filled) => {
            let (pixels, _) = filled.into_parts();
            pixels.into_block()
        }
    };
}
