//! The texts of `--help`.

/// What `faxconv --help` prints.
pub const HELP: &str = "\
usage: faxconv [OPTION].. [FILE]..

Reads the fax pages of TIFF, BigTIFF and PDF files, raw fax data and PBM pictures, and writes them as PBM, PNG, TIFF or PDF.
Without FILE, or if FILE is -, it reads standard input. A folder is its files, in the order of their names. File types are detected
from their contents.

  -o, --output NAME.EXT   write NAME.pbm, NAME.png, NAME.tif or NAME.pdf; several pictures are NAME-1.png, NAME-2.png ..
  -f, --format FORMAT     write pbm, png, tiff or pdf, whatever the name; without -o to standard output
  -p, --pages PAGES       only these pages, for example 2-5 or 1,3,7-; the first page is 1
  -e, --encode ENCODING   TIFF and PDF: encode all pages again, as g4, 1d, 2d or shortest; without it only the pages that can't be
                          copied are encoded, as the first of these
      --copy              TIFF and PDF: copy pages without reading them first where possible; damage is not reported
      --overwrite         replace files that exist; -n, --no-overwrite: don't (default)
      --resolution DPI    the resolution in place of that of the files, as 200 or 204x98 dots an inch
      --rotate DEGREES    turn pages clockwise by 90, 180 or 270
      --rows-per-strip ROWS   TIFF: the rows of each strip of pages that are encoded (default: one strip a page)
      --check             write no pictures, but a line for each page that says whether it can be read strictly
      --standard          with --check: also where data breaks a rule by which every decoder must read it as the same picture
      --info              write no pictures, but a line for each page: its size, resolution and encoding; nothing is decoded
      --guess             write no pictures, but a line for each way to read raw data of which nobody knows the encoding, the
                          likeliest first: what speaks for it, and the options that read it so; with -w by this width alone
      --show-damage NAME.png  write pictures in which damaged rows are in colour, above a legend
      --json              lines of --check, --info and --guess as JSON
  -q, --quiet             don't report damage and what is left out; the exit status says it
      --help, --version

Raw data is described by these options alone:
  -m, --mode MODE         g4, 1d or 2d: Group 4, or Group 3 of one or two dimensions
  -w, --width COLUMNS     width in pixels (default 1728)
  -r, --rows ROWS         largest number of rows (default 0: no limit)
  -H, --height ROWS       height, where it is known: missing rows are white, and the rows of standard input are written to PBM
                          as they are read
  -F, --flags FLAGS       letters: b (EOFB or RTC may end the data), l (an EOL precedes each line), a (rows are aligned to
                          bytes), s (strict), r (the lowest bit of each byte comes first), or - for none (default b)

The exit status is 0 if every page is whole, 3 if a page has all its rows but is damaged, 1 if rows or pages are missing, and
2 after a usage error, an error in reading or writing, or if out of memory. Damage is reported on standard error, one line a page.
With --guess a file whose likeliest reading is damaged gives 3, and one that is not fax data gives 1.
";

/// What `fax2pbm --help` prints.
pub const HELP_OF_FAX2PBM: &str = "\
usage: fax2pbm [OPTION].. [FILE]

Writes the fax pages of a TIFF or PDF file, or of raw fax data, as PBM pictures to standard output, one after the other.
It is another name of faxconv, with these options:

  -o NAME      write page 0 to NAME-0.pbm, and so on
  -p PAGES     only these pages; the first page is 0
  -m MODE, -w COLUMNS, -r ROWS, -H ROWS   describe raw data, as for faxconv
  -f FLAGS     is -F of faxconv

The exit status is that of faxconv.
";
