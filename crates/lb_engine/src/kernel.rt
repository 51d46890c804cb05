//! The kernel text, which each run reads first: the commands of LaTeX that are macros here (source2e, files ltplain, ltspace, ltfssini,
//! ltsect, ltlists and ltpage).
ghost use Rattle.std.specs.Prelude.{◌≡◌, IfOk};
ghost use Rattle.lb_model.specs.Tokens.{cut_lines};
ghost use Rattle.lb_model_engine.specs.Kernel.{kernel_lines};

use lb_base::{Bytes, NoMemory};
use std::alloc::Global;

/// How many lines it has.
pub(crate) const KERNEL_LINES: u64 = 69;

/// The kernel text.
pub(crate) fn kernel_bytes(alloc: Global) -> Result<Bytes, NoMemory>
    ensures { IfOk result (λ bytes. cut_lines bytes ≡ kernel_lines) }
{
    Bytes::from_slice(
        alloc,
        b"\
\\catcode`\\@=11\n\
\\let\\bgroup={\\let\\egroup=}\n\
\\def\\makeatletter{\\catcode`\\@=11\\relax}\\def\\makeatother{\\catcode`\\@=12\\relax}\n\
\\def~{\\penalty10000\\ }\\def\\^^M{\\ }\\def^^L{\\par}\\def\\space{ }\\def\\nobreak{\\penalty10000 }\n\
\\def\\quad{\\hskip1em\\relax}\\def\\qquad{\\hskip2em\\relax}\n\
\\chardef\\$=36 \\chardef\\&=38 \\chardef\\%=37 \\chardef\\#=35 \\chardef\\_=95\n\
\\chardef\\{=123 \\chardef\\}=125 \\chardef\\textbackslash=92\n\
\\def\\ldots{.\\kern.18em.\\kern.18em.\\kern.18em}\\let\\dots\\ldots\n\
\\def\\rmfamily{\\@style0 }\\def\\bfseries{\\@style1 }\\def\\itshape{\\@style2 }\n\
\\def\\slshape{\\@style3 }\\def\\ttfamily{\\@style4 }\\def\\sffamily{\\@style5 }\n\
\\let\\normalfont\\rmfamily\\let\\rm\\rmfamily\\let\\bf\\bfseries\\let\\it\\itshape\n\
\\let\\em\\itshape\\let\\tt\\ttfamily\n\
\\long\\def\\textrm#1{{\\rmfamily#1}}\\long\\def\\textbf#1{{\\bfseries#1}}\n\
\\long\\def\\textit#1{{\\itshape#1\\ifhmode\\/\\fi}}\\long\\def\\texttt#1{{\\ttfamily#1}}\n\
\\let\\emph\\textit\n\
\\def\\tiny{\\@size0 }\\def\\scriptsize{\\@size1 }\\def\\footnotesize{\\@size2 }\n\
\\def\\small{\\@size3 }\\def\\normalsize{\\@size4 }\\def\\large{\\@size5 }\n\
\\def\\Large{\\@size6 }\\def\\LARGE{\\@size7 }\\def\\huge{\\@size8 }\\def\\Huge{\\@size9 }\n\
\\def\\setlength#1#2{#1 #2\\relax}\\def\\addtolength#1#2{\\advance#1 by #2\\relax}\n\
\\def\\newpage{\\par\\vfil\\penalty-10000 }\\let\\clearpage\\newpage\n\
\\def\\cleardoublepage{\\clearpage\\ifodd\\value{page}\\else\\hbox{}\\newpage\\fi}\n\
\\def\\newline{\\hfil\\penalty-10000 }\\def\\linebreak{\\penalty-10000 }\n\
\\def\\nolinebreak{\\penalty10000 }\n\
\\def\\pagebreak{\\ifvmode\\penalty-10000 \\else\\vadjust{\\penalty-10000 }\\fi}\n\
\\def\\nopagebreak{\\ifvmode\\penalty10000 \\else\\vadjust{\\penalty10000 }\\fi}\n\
\\def\\smallskip{\\vskip3pt plus1pt minus1pt\\relax}\n\
\\def\\medskip{\\vskip6pt plus2pt minus2pt\\relax}\n\
\\def\\bigskip{\\vskip12pt plus4pt minus4pt\\relax}\n\
\\def\\centering{\\leftskip0pt plus1fil\\relax\\rightskip\\leftskip\n\
\\parfillskip0pt\\relax\\parindent0pt\\relax}\n\
\\def\\raggedright{\\rightskip0pt plus1fil\\relax\\parindent0pt\\relax}\n\
\\def\\thechapter{\\arabic{chapter}}\\def\\thesection{\\thechapter.\\arabic{section}}\n\
\\def\\thesubsection{\\thesection.\\arabic{subsection}}\n\
\\def\\thesubsubsection{\\thesubsection.\\arabic{subsubsection}}\n\
\\def\\theparagraph{\\thesubsubsection.\\arabic{paragraph}}\n\
\\def\\thesubparagraph{\\theparagraph.\\arabic{subparagraph}}\n\
\\def\\thefootnote{\\arabic{footnote}}\n\
\\def\\theenumi{\\arabic{enumi}}\\def\\theenumii{\\alph{enumii}}\n\
\\def\\theenumiii{\\roman{enumiii}}\\def\\theenumiv{\\Alph{enumiv}}\n\
\\def\\@chapapp{Chapter}\\def\\contentsname{Contents}\n\
\\def\\chapter{\\@head0 }\\def\\section{\\@head1 }\\def\\subsection{\\@head2 }\n\
\\def\\subsubsection{\\@head3 }\\def\\paragraph{\\@head4 }\\def\\subparagraph{\\@head5 }\n\
\\def\\tableofcontents{\\chapter*{\\contentsname}{\\makeatletter\\@toc}}\n\
\\def\\numberline#1{\\hbox to23pt{#1\\hfil}}\n\
\\def\\frontmatter{\\clearpage\\@matter0 \\pagenumbering{roman}}\n\
\\def\\mainmatter{\\clearpage\\@matter1 \\pagenumbering{arabic}}\n\
\\def\\backmatter{\\clearpage\\@matter2 }\n\
\\def\\appendix{\\par\\setcounter{chapter}{0}\\setcounter{section}{0}%\n\
\\gdef\\@chapapp{Appendix}\\gdef\\thechapter{\\Alph{chapter}}}\n\
\\def\\itemize{\\@list0 }\\let\\enditemize\\@endlist\n\
\\def\\enumerate{\\@list1 }\\let\\endenumerate\\@endlist\n\
\\def\\description{\\@list2 }\\let\\enddescription\\@endlist\n\
\\def\\quote{\\@list3 }\\let\\endquote\\@endlist\n\
\\def\\quotation{\\@list4 }\\let\\endquotation\\@endlist\n\
\\def\\center{\\@list5 }\\let\\endcenter\\@endlist\n\
\\def\\flushleft{\\@list6 }\\let\\endflushleft\\@endlist\n\
\\def\\flushright{\\@list7 }\\let\\endflushright\\@endlist\n\
\\long\\def\\footnote#1{\\leavevmode\\stepcounter{footnote}%\n\
\\raise3.6pt\\hbox{\\@size1 \\thefootnote}\\@ins{\\hsize\\textwidth\\leftskip0pt\\relax\n\
\\rightskip0pt\\relax\\parindent10pt\\relax\\@size2 \\normalfont\n\
\\indent\\raise3pt\\hbox{\\@size0 \\thefootnote}#1\\par}}\n\
\\def\\title#1{\\gdef\\@title{#1}}\\def\\author#1{\\gdef\\@author{#1}}\n\
\\def\\date#1{\\gdef\\@date{#1}}\\def\\and{, }\\title{}\\author{}\\date{\\today}\n\
\\def\\today{\\ifcase\\month\\or January\\or February\\or March\\or April\\or May\\or\n\
June\\or July\\or August\\or September\\or October\\or November\\or December\\fi\n\
\\space\\number\\day, \\number\\year}\n\
\\def\\maketitle{\\begin{center}{\\LARGE\\@title\\par}\\vskip15pt\\relax\n\
{\\large\\@author\\par}\\vskip10pt\\relax{\\large\\@date\\par}\\end{center}}\n\
\\catcode`\\@=12\n\
",
    )
}
