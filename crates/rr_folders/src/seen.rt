//! What is found of a cluster's folders before any is opened. Nothing is written.

use crate::closed::{Closed, done, failed};
use crate::cluster::{Cluster, Course, Digest, Identity, Mark, Reached};
use crate::front::{Active, AreaFront, Content, active_of, content_of, front_of};
use crate::judging::{Found, is_outdated};
use crate::lock::Locks;
use crate::plain::is_plain;
use crate::tip::{Tip, digest_of};
use rr_disk::Area;
use rr_types::made_of;
use sha2::{Digest as _, Sha256};
use std::fs;
use std::io::{ErrorKind, Read};
use std::rt::Files;

/// How many bytes an area's front has.
const FRONT: u64 = 16;

/// How many bytes are looked at at a time.
const BLOCK: usize = 16_384;

/// What was found of a node's folder.
#[derive(Clone, Copy, Debug)]
pub(crate) struct Seen {
    pub(crate) found: Found,
    pub(crate) first: AreaFront,
    pub(crate) second: AreaFront,
    pub(crate) is_there: bool,
    pub(crate) has_mark_file: bool,
}

/// Whether there is something at a path.
pub(crate) fn is_there<R: Files + AllocGlobal>(rt: &R, path: &str) -> Result<bool, Closed> {
    match fs::metadata(rt, path) {
        Ok(_) => Ok(true),
        Err(error) if error.kind() == ErrorKind::NotFound => Ok(false),
        Err(error) => Err(failed(rt, path, "looking", error)),
    }
}

/// The bytes of a file; none where it is missing.
pub(crate) fn bytes_of<R: Files + AllocGlobal>(
    rt: &R,
    path: &str,
) -> Result<Option<Vec<u8>>, Closed> {
    if !is_plain(rt, path)? {
        return Ok(None);
    }
    Ok(Some(done(rt, path, "reading", fs::read(rt, path))?))
}

// How the area in a file begins.
fn front_in<R: Files + AllocGlobal>(rt: &R, path: &str) -> Result<AreaFront, Closed> {
    if !is_plain(rt, path)? {
        return Ok(AreaFront::Missing);
    }
    let length = done(rt, path, "looking", fs::metadata(rt, path))?.len();
    let mut file = done(rt, path, "opening", fs::open(rt, path))?;
    let mut room = [0u8; FRONT as usize];
    let count = length.min(FRONT) as usize;
    done(rt, path, "reading", file.read_exact(&mut room[..count]))?;
    Ok(front_of(length, &room[..count]))
}

// A hasher of so many of the first bytes of a file. None: it is shorter.
fn hashed<R: Files + AllocGlobal>(
    rt: &R,
    path: &str,
    length: u64,
) -> Result<Option<Sha256>, Closed> {
    if done(rt, path, "looking", fs::metadata(rt, path))?.len() < length {
        return Ok(None);
    }
    let mut file = done(rt, path, "opening", fs::open(rt, path))?;
    let mut hasher = Sha256::new();
    let mut room = [0u8; BLOCK];
    for _ in 0..length / BLOCK as u64 {
        done(rt, path, "reading", file.read_exact(&mut room))?;
        hasher.update(room.as_slice());
    }
    let rest = (length % BLOCK as u64) as usize;
    done(rt, path, "reading", file.read_exact(&mut room[..rest]))?;
    hasher.update(&room[..rest]);
    Ok(Some(hasher))
}

/// The mark of a node's folder.
pub(crate) fn mark_in<R: Files + AllocGlobal>(
    rt: &R,
    folder: &str,
) -> Result<Option<Mark>, Closed> {
    match bytes_of(rt, format!(in rt.alloc(); "{folder}/node")?.as_str())? {
        Some(bytes) => Ok(Mark::parse(bytes.as_slice())),
        None => Ok(None),
    }
}

/// How far a mark says that a disk came.
pub(crate) fn course_of(mark: Option<Mark>) -> Option<Course> {
    mark?.course
}

// How far an area is to have come, by a course, where it has this epoch.
fn aim_of(course: Option<Course>, epoch: u64) -> Option<u64> {
    let course = course?;
    if course.to.epoch == epoch {
        Some(course.to.length)
    } else if course.from.epoch == epoch {
        Some(course.from.length)
    } else {
        None
    }
}

// How far an area of this epoch came, looked at as far as a course says; and what is known of it then.
fn reached_in<R: Files + AllocGlobal>(
    rt: &R,
    path: &str,
    area: Area,
    epoch: u64,
    course: Option<Course>,
) -> Result<(Reached, Option<Tip>), Closed> {
    let nothing = Reached {
        epoch,
        length: 0,
        digest: Digest {
            first: 0,
            second: 0,
            third: 0,
            fourth: 0,
        },
    };
    let Some(length) = aim_of(course, epoch) else {
        return Ok((nothing, None));
    };
    match hashed(rt, path, length)? {
        Some(hasher) => {
            let tip = Tip::new(area, 2, epoch, length, hasher);
            Ok((tip.reached()?, Some(tip)))
        }
        None => Ok((nothing, None)),
    }
}

// How far the active area of a folder with these areas came, looked at as far as a course says; and what is known of it then.
fn active_in<R: Files + AllocGlobal>(
    rt: &R,
    folder: &str,
    first: AreaFront,
    second: AreaFront,
    course: Option<Course>,
) -> Result<(Option<Reached>, Option<Tip>), Closed> {
    made_of!(Course, Reached, Digest);
    let (area, name, epoch) = match active_of(first, second) {
        Active::Neither => return Ok((None, None)),
        Active::First(epoch) => (Area::First, "a0", epoch),
        Active::Second(epoch) => (Area::Second, "a1", epoch),
    };
    let path = format!(in rt.alloc(); "{folder}/{name}")?;
    let (reached, tip) = reached_in(rt, path.as_str(), area, epoch, course)?;
    Ok((Some(reached), tip))
}

/// How far the active area of a folder that was looked over came, looked at as far as another course than its mark's says.
pub(crate) fn reached_by<R: Files + AllocGlobal>(
    rt: &R,
    folder: &str,
    seen: &Seen,
    course: Option<Course>,
) -> Result<Option<Reached>, Closed> {
    if course.is_none() {
        return Ok(None);
    }
    let (reached, _) = active_in(rt, folder, seen.first, seen.second, course)?;
    Ok(reached)
}

/// What was found of a folder that was looked over, with what was noted of its mark. Where the mark is behind that, its active area is looked at
/// as far as that.
pub(crate) fn with_note<R: Files + AllocGlobal>(
    rt: &R,
    folder: &str,
    seen: Seen,
    noted: Option<Mark>,
) -> Result<Seen, Closed> {
    made_of!(Mark, Course, Reached, Digest, Identity);
    let ahead = ahead_of(&noted, &seen.found.mark);
    let by_note = reached_by(rt, folder, &seen, ahead)?;
    let mut seen = seen;
    seen.found.noted = noted;
    seen.found.by_note = by_note;
    Ok(seen)
}

// How far a disk came, by what was noted of a mark that is behind that. None: it isn't.
fn ahead_of(noted: &Option<Mark>, mark: &Option<Mark>) -> Option<Course> {
    made_of!(Mark, Course, Reached, Digest, Identity);
    let (Some(before), Some(mark)) = (noted, mark) else {
        return None;
    };
    if is_outdated(*before, *mark) {
        before.course
    } else {
        None
    }
}

/// What is found of a node's folder, while these locks are held; and what is known of its active area then.
pub(crate) fn look_at<R: Files + AllocGlobal>(
    rt: &R,
    _locks: &Locks<R::File>,
    folder: &str,
) -> Result<(Seen, Option<Tip>), Closed> {
    look_over(rt, folder)
}

/// The same, where nobody holds a lock.
pub(crate) fn look_over<R: Files + AllocGlobal>(
    rt: &R,
    folder: &str,
) -> Result<(Seen, Option<Tip>), Closed> {
    made_of!(Mark, Course, Reached, Digest, Identity);
    if !is_there(rt, folder)? {
        return Ok((nothing_seen(), None));
    }
    let first_path = format!(in rt.alloc(); "{folder}/a0")?;
    let second_path = format!(in rt.alloc(); "{folder}/a1")?;
    let first = front_in(rt, first_path.as_str())?;
    let second = front_in(rt, second_path.as_str())?;
    let marked = bytes_of(rt, format!(in rt.alloc(); "{folder}/node")?.as_str())?;
    let mark = match &marked {
        Some(bytes) => Mark::parse(bytes.as_slice()),
        None => None,
    };
    let (active, tip) = active_in(rt, folder, first, second, course_of(mark))?;
    let seen = Seen {
        found: Found {
            content: content_of(first, second),
            mark,
            active,
            noted: None,
            by_note: None,
        },
        first,
        second,
        is_there: true,
        has_mark_file: marked.is_some(),
    };
    Ok((seen, tip))
}

// What is seen where no folder is.
fn nothing_seen() -> Seen {
    Seen {
        found: Found {
            content: Content::Absent,
            mark: None,
            active: None,
            noted: None,
            by_note: None,
        },
        first: AreaFront::Missing,
        second: AreaFront::Missing,
        is_there: false,
        has_mark_file: false,
    }
}

/// What the cluster's file in the folder DIR says. None: it is missing, or says nothing.
pub(crate) fn cluster_in<R: Files + AllocGlobal>(
    rt: &R,
    dir: &str,
) -> Result<Option<Cluster>, Closed> {
    let path = format!(in rt.alloc(); "{dir}/cluster")?;
    match bytes_of(rt, path.as_str())? {
        Some(bytes) => Ok(Cluster::parse(bytes.as_slice())),
        None => Ok(None),
    }
}
