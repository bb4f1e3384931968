// The form of a start line: an `S`, or a `W`, which has two check points.
ghost use Rattle.std.specs.Prelude.{◌≡◌, suc, ◌≤◌};
ghost use Rattle.shape.specs.Bounds.{most_points};
ghost use Rattle.csv_fields.specs.Fields.{push, fields_at, ended};
ghost use Rattle.street_reading.specs.Starting.{starts_with, is_start_of, points_in_of, dash_at_of, behind_posts, start_of, start_said};

use crate::Settings;

fn starts_with(letter: u8) -> bool
    ensures { result ≡ starts_with letter }
{
    matches!(letter, b'S' | b'W')
}

// The first field is `S` or `W`.
pub fn is_start(line: &[u8]) -> bool
    ensures { result ≡ is_start_of line.now }
{
    if line.is_empty() || !starts_with(line[0]) {
        return false;
    }
    line.len() < 2 || line[1] == b',' || line[1] == b'\n'
}

// How many check points a start line has.
fn points_in(line: &[u8]) -> usize
    ensures { (result ≡ points_in_of line.now) × (1 ≤ result) × (result ≤ most_points) }
{
    if !line.is_empty() && line[0] == b'W' {
        return shape::MOST_POINTS;
    }
    1
}

// A comma and a `-` stand at a position.
fn dash_at(line: &[u8], at: usize) -> bool
    ensures { result ≡ dash_at_of line.now at }
{
    if line.len() <= at || line[at] != b',' || line.len() <= at + 1 {
        return false;
    }
    line[at + 1] == b'-'
}

// The check points, the last fields, behind n, t and the post. Of at most one number the largest is the number, and of none it is 0.
fn scan_points(line: &[u8], points: usize, n: u64, t: u64, post: u64, at: usize) -> Option<Settings>
    requires { (1 ≤ points) × (points ≤ most_points) }
    ensures { result ≡ start_of points (push n (push t (push post (ended line.now (fields_at points line.now at))))) }
{
    let first = csv_fields::fields_at(line, at, 1)?;
    let last = csv_fields::last_fields_at(line, first.next, points - 1)?;
    Some(Settings {
        n,
        t,
        post,
        points,
        first: first.largest,
        second: last.largest,
    })
}

// The post and its check points, behind n and t.
fn scan_own(line: &[u8], points: usize, n: u64, t: u64, at: usize) -> Option<Settings>
    requires { (1 ≤ points) × (points ≤ most_points) }
    ensures { result ≡ start_of points (push n (push t (ended line.now (fields_at (suc points) line.now at)))) }
{
    let post = csv_fields::fields_at(line, at, 1)?;
    scan_points(line, points, n, t, post.largest, post.next)
}

// t, which may be a dash for half of n, and what stands behind it.
fn scan_settings(line: &[u8], points: usize, n: u64, at: usize) -> Option<Settings>
    requires { (1 ≤ points) × (points ≤ most_points) }
    ensures { result ≡ start_of points (push n (behind_posts line.now points n at)) }
{
    if dash_at(line, at) {
        return scan_own(line, points, n, n / 2, at + 2);
    }
    let t = csv_fields::fields_at(line, at, 1)?;
    scan_own(line, points, n, t.largest, t.next)
}

// What a start line says, or none where its form is wrong.
pub fn scan_start(line: &[u8]) -> Option<Settings>
    ensures { result ≡ start_said line.now }
{
    let points = points_in(line);
    let n = csv_fields::fields_at(line, 1, 1)?;
    scan_settings(line, points, n.largest, n.next)
}
