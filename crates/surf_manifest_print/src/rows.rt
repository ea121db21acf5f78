// The rows of the initial state.
ghost use Rattle.std.specs.Prelude.{◌*◌, ◌++◌, ◌<◌, ◌∷◌, ◌≡◌, ◌≤◌, IfOk, OnOk, [], codes, length, map, take};
ghost use Rattle.surf_text.specs.Bytes.{ended, rows_of, spaced};
ghost use Rattle.surf_manifest.specs.Drafts.{NamesBelow};
ghost use Rattle.surf_manifest_print.specs.Rows.{after_blanks, short_texts};
ghost use Rattle.surf_rules.specs.Names.{text_of};

use crate::printer::Printer;
use crate::shorts::{PIECE, Short};
use surf_base::NoMemory;
use surf_rules::Names;

impl Printer {
    // Appends what waits, a blank and the text of a name.
    #[cold]
    #[inline(never)]
    fn put_long(&mut self, names: &Names, name: u32, waiting: &[u8]) -> Result<(), NoMemory>
        requires { name < length names.now }
        ensures { OnOk result
            (self.new ≡ self.old ++ (waiting.now ++ (32 ∷ text_of names.now name))) }
    {
        self.put(waiting)?;
        self.put(b" ")?;
        self.put_name(names, name)
    }

    /// Puts a blank and a short name behind the bytes that wait at the front of a piece, and appends
    /// those where they are many. Answers how many wait then.
    #[inline(always)]
    pub fn put_short(
        &mut self,
        short: &Short,
        piece: &mut [u8; PIECE],
        len: usize,
    ) -> Result<usize, NoMemory>
        requires { len ≤ 4096 }
        ensures text { IfOk result (λ n. self.new ++ take n piece.new
            ≡ self.old ++ (take len piece.old ++ short.now)) }
        ensures most { IfOk result (λ n. n ≤ 4096) }
    {
        let len = short.put(piece, len);
        if len > 4096 {
            self.put(&piece[..len])?;
            return Ok(0);
        }
        Ok(len)
    }

    // Puts a blank and the text of a name behind the bytes that wait.
    #[inline(always)]
    fn put_next(
        &mut self,
        names: &Names,
        shorts: &[Short],
        name: u32,
        piece: &mut [u8; PIECE],
        len: usize,
    ) -> Result<usize, NoMemory>
        requires name { name < length names.now }
        requires shorts { shorts.now ≡ short_texts names.now }
        requires room { len ≤ 4096 }
        ensures text { IfOk result (λ n. self.new ++ take n piece.new
            ≡ self.old ++ (take len piece.old ++ (32 ∷ text_of names.now name))) }
        ensures most { IfOk result (λ n. n ≤ 4096) }
    {
        match shorts.get(name as usize) {
            Some(short) if !short.is_empty() => self.put_short(short, piece, len),
            _ => {
                self.put_long(names, name, &piece[..len])?;
                Ok(0)
            }
        }
    }

    // Appends names, each with a blank before it.
    fn put_others(
        &mut self,
        names: &Names,
        shorts: &[Short],
        others: &[u32],
        piece: &mut [u8; PIECE],
    ) -> Result<(), NoMemory>
        requires names { NamesBelow (length names.now) others.now }
        requires shorts { shorts.now ≡ short_texts names.now }
        ensures { OnOk result
            (self.new ≡ self.old ++ after_blanks (map (text_of names.now) others.now)) }
    {
        let mut len = 0usize;
        for name in others {
            len = self.put_next(names, shorts, *name, piece, len)?;
        }
        self.put(&piece[..len])
    }

    // Appends names with one blank between them.
    fn put_names(
        &mut self,
        names: &Names,
        shorts: &[Short],
        row: &[u32],
        piece: &mut [u8; PIECE],
    ) -> Result<(), NoMemory>
        requires shorts { shorts.now ≡ short_texts names.now }
        requires names { NamesBelow (length names.now) row.now }
        ensures { OnOk result (self.new ≡ self.old ++ spaced (map (text_of names.now) row.now)) }
    {
        match row.split_first() {
            Some((first, others)) => {
                self.put_name(names, *first)?;
                self.put_others(names, shorts, others, piece)?;
                Ok(())
            }
            None => Ok(()),
        }
    }

    // Appends the line of a row.
    fn put_row(
        &mut self,
        names: &Names,
        shorts: &[Short],
        row: &[u32],
        piece: &mut [u8; PIECE],
    ) -> Result<(), NoMemory>
        requires shorts { shorts.now ≡ short_texts names.now }
        requires names { NamesBelow (length names.now) row.now }
        ensures { OnOk result
            (self.new ≡ self.old ++ (spaced (map (text_of names.now) row.now) ++ 10 ∷ [])) }
    {
        self.put_names(names, shorts, row, piece)?;
        self.put(b"\n")
    }

    // Appends the lines of the rows.
    fn put_rows(
        &mut self,
        names: &Names,
        shorts: &[Short],
        start: &[u32],
        width: u32,
        height: u32,
    ) -> Result<(), NoMemory>
        requires names { NamesBelow (length names.now) start.now }
        requires shorts { shorts.now ≡ short_texts names.now }
        requires sites { length start.now ≡ width * height }
        ensures { let texts = map (text_of names.now) start.now in
            OnOk result (self.new ≡ self.old ++ ended (map spaced (rows_of width height texts))) }
    {
        let mut piece = [0u8; PIECE];
        let mut rest = start;
        for _y in 0..height {
            let (row, after) = rest.split_at(width as usize);
            self.put_row(names, shorts, row, &mut piece)?;
            rest = after;
        }
        Ok(())
    }

    /// Appends the block of the initial state.
    pub fn put_state_block(
        &mut self,
        names: &Names,
        shorts: &[Short],
        start: &[u32],
        width: u32,
        height: u32,
    ) -> Result<(), NoMemory>
        requires names { NamesBelow (length names.now) start.now }
        requires shorts { shorts.now ≡ short_texts names.now }
        requires sites { length start.now ≡ width * height }
        ensures { let texts = map (text_of names.now) start.now in
            let lines = map spaced (rows_of width height texts) in
            OnOk result (self.new ≡ self.old ++ ended (codes "!START_INIT_STATE"
            ∷ (lines ++ (codes "!END_INIT_STATE" ∷ [])))) }
    {
        self.put_line(b"!START_INIT_STATE")?;
        self.put_rows(names, shorts, start, width, height)?;
        self.put_line(b"!END_INIT_STATE")
    }
}
