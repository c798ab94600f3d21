//! Files in memory, by name.

ghost use Rattle.std.specs.Prelude.{◌≡◌, ℕ, ◌+◌, ◌^◌, ◌<◌, ◌≤◌, [], length, drop, map, min, Option, Some, None, MatchOption, is_some, unwrap_or};
ghost use Rattle.outside.specs.Outside.{MovesBytes};
ghost use Rattle.outside.specs.Files.{file_of, content_in, content_at, left_in};

// A list of files. The one with index `place` is open, and `read` bytes of it were read.
#[derive(Drop)]
pub(crate) struct Shelf {
    pub(crate) files: Vec<(String, Vec<u8>)>,
    pub(crate) place: Option<usize>,
    pub(crate) read: usize,
}

// The index of the first file with this name.
fn place_of(files: &[(String, Vec<u8>)], name: &str) -> Option<usize>
    ensures { MatchOption result (content_in (map file_of files.now) name.now ≡ None)
        (λ k. content_in (map file_of files.now) name.now
        ≡ Some (content_at (map file_of files.now) k)) }
{
    for (i, (own, _)) in files.iter().enumerate() {
        if own.as_str() == name {
            return Some(i);
        }
    }
    None
}

// The content of the file with this index, and no bytes if there is no such file.
fn nth_content(files: &[(String, Vec<u8>)], index: usize) -> &[u8]
    ensures { result.now ≡ content_at (map file_of files.now) index }
{
    match files.get(index) {
        Some((_, content)) => content,
        None => &[],
    }
}

// The bytes after the first `count`.
fn after_first(bytes: &[u8], count: usize) -> &[u8]
    ensures rest { result.now ≡ drop count bytes.now }
    ensures place { count + length result.now < 2 ^ 64 }
{
    &bytes[count.min(bytes.len())..]
}

// Copies the first bytes of `left` into the buffer, as many as fit, and returns their number.
fn copy_first(left: &[u8], buf: &mut [u8]) -> usize
    ensures most { result ≡ min (length buf.old) (length left.now) }
    ensures moved { MovesBytes result left.now buf.new (Some (drop result left.now)) }
{
    let n = buf.len().min(left.len());
    buf[..n].copy_from_slice(&left[..n]);
    n
}

impl Shelf {
    pub(crate) fn new(files: Vec<(String, Vec<u8>)>) -> Shelf
        ensures files { result.files ≡ files }
        ensures closed { result.place ≡ None }
    {
        Shelf {
            files,
            place: None,
            read: 0,
        }
    }

    pub(crate) fn is_open(&self) -> bool
        ensures { result ≡ is_some self.now.place }
    {
        self.place.is_some()
    }

    pub(crate) fn close(&mut self)
        ensures files { self.new.files ≡ self.old.files }
        ensures closed { self.new.place ≡ None }
    {
        self.place = None;
    }

    // Opens the first file with this name, and returns whether there is one.
    pub(crate) fn open(&mut self, name: &str) -> bool
        ensures found { result ≡ is_some (content_in
            (map file_of self.old.files.items) name.now) }
        ensures open { is_some self.new.place ≡ result }
        ensures left { left_in (map file_of self.new.files.items) self.new.place self.new.read
            ≡ unwrap_or (content_in (map file_of self.old.files.items) name.now) [] }
        ensures files { self.new.files ≡ self.old.files }
    {
        self.place = place_of(&self.files, name);
        self.read = 0;
        self.place.is_some()
    }

    // The bytes left of the open file.
    fn rest(&self) -> &[u8]
        ensures place { self.now.read + length result.now < 2 ^ 64 }
        ensures rest { result.now
            ≡ left_in (map file_of self.now.files.items) self.now.place self.now.read }
    {
        let read = self.read;
        match self.place {
            Some(k) => after_first(nth_content(&self.files, k), read),
            None => &[],
        }
    }

    // Reads the next bytes of the open file into the buffer, as many as fit. Returns their number.
    pub(crate) fn read_next(&mut self, buf: &mut [u8]) -> usize
        ensures most { result ≡ min (length buf.old) (length
            (left_in (map file_of self.old.files.items) self.old.place self.old.read)) }
        ensures moved { MovesBytes result (left_in
            (map file_of self.old.files.items) self.old.place self.old.read) buf.new
            (Some (left_in (map file_of self.new.files.items) self.new.place self.new.read)) }
        ensures files { self.new.files ≡ self.old.files }
        ensures place { self.new.place ≡ self.old.place }
    {
        let n = copy_first(self.rest(), buf);
        self.read += n;
        n
    }
}
