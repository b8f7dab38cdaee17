//! The loops of an instance, over its columns and the coordinates of a point.
ghost use Rattle.std.specs.Prelude.{◌≡◌, ℕ, ◌+◌, ◌*◌, ◌<◌, ◌≤◌, ◌^◌, length, drop, take, map, All};
ghost use Rattle.ct_vectors.specs.Vectors.{total, add, scale};
ghost use Rattle.ct_vectors.specs.declared.limits.TheConstants.{ROW_LIMIT, COLUMN_LIMIT, ENTRY_LIMIT, JOB_GRADE_LIMIT};
ghost use Rattle.ct_instance.specs.Instance.{degree_of, grade_of, weighted};

use ct_point::Point;

// The sum of coordinate times column sum over the columns, and of the artificials: the grade.
pub fn grade_by_sums(sums: &[u64], p: &[u64]) -> u64
    requires width { length sums.now ≤ length p.now }
    requires fits { weighted sums.now p.now < 2 ^ 64 }
    ensures { result ≡ weighted sums.now p.now }
{
    let n = sums.len();
    let mut sum = 0;
    for j in 0..n {
        sum += sums[j] * p[j];
    }
    sum + ct_order::sum(&p[n..])
}

// The same, wide enough for any point whose coordinates are within the limit.
pub fn wide_grade_by_sums(sums: &[u64], p: &[u64]) -> u128
    requires columns { length sums.now ≤ COLUMN_LIMIT }
    requires width { length sums.now ≤ length p.now }
    requires most { length p.now ≤ length sums.now + ROW_LIMIT }
    requires sum_limit { All (λ s. s ≤ ROW_LIMIT * ENTRY_LIMIT) sums.now }
    requires limit { All (λ x. x ≤ JOB_GRADE_LIMIT) p.now }
    ensures { result ≡ weighted sums.now p.now }
{
    let n = sums.len();
    let mut sum = 0u128;
    for j in 0..n {
        sum += sums[j] as u128 * p[j] as u128;
    }
    sum + ct_order::sum(&p[n..]) as u128
}

// The degree becomes x times the column more.
pub fn add_multiple(degree: &mut [u64], column: &[u64], x: u64)
    requires width { length degree.old ≡ length column.now }
    requires fits { total (add (scale x column.now) degree.old) < 2 ^ 64 }
    ensures { degree.new ≡ add (scale x column.now) degree.old }
{
    for i in 0..degree.len() {
        degree[i] += x * column[i];
    }
}

// From the artificials in the degree to A x + y, from the last column on.
pub fn degree_by_columns(columns: &[Point], p: &[u64], degree: &mut [u64])
    requires width { length columns.now ≤ length p.now }
    requires rows { All (λ c. length c ≡ length degree.old) columns.now }
    requires artificials { degree.old ≡ drop (length columns.now) p.now }
    requires fits { grade_of columns.now p.now < 2 ^ 64 }
    ensures { degree.new ≡ degree_of columns.now p.now }
{
    for j in (0..columns.len()).rev() {
        add_multiple(degree, columns[j].as_slice(), p[j]);
    }
}
