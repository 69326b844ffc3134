ghost use Rattle.std.specs.Prelude.{◌≡◌, ◌≤◌, ◌<◌, ◌+◌, length};

/// Writes the bytes over as many others. Few bytes, as words and lines have, are written without a call.
#[inline(always)]
pub fn copy_bytes(target: &mut [u8], bytes: &[u8])
    requires { length target.old ≡ length bytes.now }
    ensures { target.new ≡ bytes.now }
{
    if bytes.len() > 16 {
        copy_many(target, bytes);
    } else {
        copy_few(target, bytes);
    }
}

#[inline(always)]
fn copy_many(target: &mut [u8], bytes: &[u8])
    requires same { length target.old ≡ length bytes.now }
    requires many { 16 < length bytes.now }
    ensures { target.new ≡ bytes.now }
{
    let count = bytes.len();
    if count > 128 {
        target.copy_from_slice(bytes);
    } else if count > 64 {
        copy_ends::<64>(target, bytes);
    } else if count > 32 {
        copy_ends::<32>(target, bytes);
    } else {
        copy_ends::<16>(target, bytes);
    }
}

#[inline(always)]
fn copy_few(target: &mut [u8], bytes: &[u8])
    requires same { length target.old ≡ length bytes.now }
    requires few { length bytes.now ≤ 16 }
    ensures { target.new ≡ bytes.now }
{
    let count = bytes.len();
    if count > 8 {
        copy_ends::<8>(target, bytes);
    } else if count > 3 {
        copy_ends::<4>(target, bytes);
    } else if count > 1 {
        copy_ends::<2>(target, bytes);
    } else if count > 0 {
        copy_ends::<1>(target, bytes);
    }
}

// Writes the first bytes, so many, and as many of the last, which may overlap.
#[inline(always)]
fn copy_ends<const PART: usize>(target: &mut [u8], bytes: &[u8])
    requires same { length target.old ≡ length bytes.now }
    requires within { PART ≤ length bytes.now }
    requires covers { length bytes.now ≤ PART + PART }
    ensures { target.new ≡ bytes.now }
{
    if let Some(first) = bytes.first_chunk::<PART>()
        && let Some(last) = bytes.last_chunk::<PART>()
    {
        if let Some(place) = target.first_chunk_mut::<PART>() {
            *place = *first;
        }
        if let Some(place) = target.last_chunk_mut::<PART>() {
            *place = *last;
        }
    }
}
