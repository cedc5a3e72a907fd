//! Searches for clients' rows.

ghost use Rattle.std.specs.Prelude.{◌≡◌, ◌==◌, ℕ, position};
ghost use Rattle.sm_history.specs.Tables.{IsFound};

/// A row of a client in a table.
pub trait OfClient {
    ghost client_of: { Self → ℕ };

    /// Returns the number of the row's client.
    fn client(&self) -> u32
        ensures { result ≡ client_of self.now };
}

fn first_of<R: OfClient>(rows: &[R], client: u32) -> Option<usize>
    ensures { result ≡ position (λ r. R.client_of r == client) rows.now }
{
    rows.iter().position(|row| row.client() == client)
}

/// Returns the index of a row of a client. While no client dies, their numbers follow each other, so the row at its
/// number's distance from the first one is tried first.
#[inline]
pub fn row_index<R: OfClient>(rows: &[R], client: u32) -> Option<usize>
    ensures { IsFound R.client_of rows.now client result }
{
    if !rows.is_empty() {
        let guess = (client.wrapping_sub(rows[0].client()) as usize).min(rows.len() - 1);
        if rows[guess].client() == client {
            return Some(guess);
        }
    }
    first_of(rows, client)
}
