// The chart outline of a notice (paper 01, "Notice and packet"): its points in a lent row, in hundredths of a minute.
#![tactic(auto)]

ghost use Rattle.std.specs.Prelude.{◌≡◌, ◌+◌, ◌*◌, ◌^◌, ◌≤◌, length};
ghost use Rattle.std.proofs.lemmas.List.Edits.{sets};
ghost use Rattle.notice_fields.specs.Standing.{front};
ghost use Rattle.outline.specs.Promises.{Outlines};
ghost use Rattle.outline.specs.Standing.{points_drawn, outline_at};

pub use crate::angles::{latitude_of, longitude_of};
use format::{Reason, Refusal};
use notice_fields::areas::FRONT;
use notice_fields::parts::{LATITUDE, LONGITUDE, POINT};

pub mod angles;

// The outline of a notice into the front of the row: of each point its latitude, then its longitude. How many points, or the refusal.
pub fn outline(s: &[u8], english: bool, row: &mut [i32]) -> Result<usize, Refusal>
    ensures { Outlines english s.now row.old result row.new }
{
    let f = notice::reading::passed_fields(s, 0, english)?;
    let notice = f.notice;
    let extent = notice_fields::row::measure(s, notice.count);
    let points = extent.points;
    if row.len() < points * 2 {
        return Err(Reason::Room.into());
    }
    draw(s, notice.count, row);
    Ok(points)
}

// The points of a notice's first `count` areas, into the front of the row.
fn draw(s: &[u8], count: u8, row: &mut [i32])
    requires { length (outline_at s.now count front) ≤ length row.old }
    ensures { row.new ≡ sets row.old 0 (outline_at s.now count front) }
{
    let mut k: usize = 0;
    let mut at = FRONT;
    for _ in 0..count {
        let area = notice_fields::row::area_at(s, at);
        draw_points(s, area.first, area.points, row, k);
        k += area.points * 2;
        at = area.next as u32;
    }
}

// n points from bit `at` on, from row entry k on.
fn draw_points(s: &[u8], at: usize, n: usize, row: &mut [i32], k: usize)
    requires { (at ≤ 2 ^ 33) × (n ≤ 15) × (k + n * 2 ≤ length row.old) }
    ensures { row.new ≡ sets row.old k (points_drawn s.now n at) }
{
    for j in 0..n {
        let here = at + j * POINT;
        let latitude = bits::get(s, here, LATITUDE);
        let longitude = bits::get(s, here + LATITUDE, LONGITUDE);
        row[k + j * 2] = latitude_of(latitude);
        row[k + j * 2 + 1] = longitude_of(longitude);
    }
}
