//! The other half of a page's script: it lays the picture out, and answers clicks and keys. `web/embed.py` makes this file of those beside it.

/// How the script shows the run.
pub(crate) const PAGE_SCRIPT: &[u8] = b"// How the run is shown.

// The picture's items in their order: marks of a line each, and elements of an event each. Of each: where its text begins and
// ends, how far down it reaches from and to, and its event or -1. `items` has the item of each event, or -1 where a cut leaves it
// out, and `heights` how far down the event is.
const art = { begin: [], end: [], top: [], bottom: [], owner: [] };
let [items, heights] = [new Int32Array(total).fill(-1), new Int32Array(total)];
const is_shown = (index) => items[index] >= 0;

// How far down a mark reaches from and to: a node's line, a box, the arrow of a message that nobody hears, or words.
const MARK = /M\\d+ (\\d+)V(\\d+)|y=\"(\\d+)\" width=\"\\d+\" height=\"(\\d+)\"|y1=\"(\\d+)\" x2=\"\\d+\" y2=\"(\\d+)\"| y=\"(\\d+)\"/;

// The place of an event's element that is clicked. Before it may stand an arrow, which comes from far: how far down that begins.
const BOX = /<rect class=\"x\" x=\"\\d+\" y=\"(\\d+)\" width=\"\\d+\" height=\"(\\d+)\"/g;
const ARROW = /<line [^>]* y1=\"(\\d+)\"|<path [^>]*d=\"M\\d+ (\\d+)C/y;

function keep_item(begin, end, top, bottom, index) {
  art.begin.push(begin);
  art.end.push(end);
  art.top.push(top - 8);
  art.bottom.push(bottom + 8);
  art.owner.push(index);
}

// The events that have an element, in their order. No two are as far down.
const shown = { index: [], height: [] };

// The arrow of a message that nobody hears stands apart from the event that sends it, and begins as far down.
function read_mark(begin, end) {
  const [, line, foot, box, tall, sent, lost, word] = MARK.exec(source.slice(begin, end))?.map(Number) ?? [];
  if (sent >= 0) keep_item(begin, end, sent, lost, shown.index[first_from(shown.height, sent)] ?? -1);
  else if (line >= 0) keep_item(begin, end, line, foot, -1);
  else if (box >= 0) keep_item(begin, end, box, box + tall, -1);
  else keep_item(begin, end, word, word, -1);
}

function read_event(begin, end) {
  const index = place_of(Number.parseInt(source.slice(begin + 15, begin + 30), 10)) ?? -1;
  const shapes = source.indexOf(\"</title>\", begin) + \"</title>\".length;
  BOX.lastIndex = shapes;
  const box = BOX.exec(source);
  ARROW.lastIndex = shapes;
  const arrow = ARROW.exec(source);
  const y = Number(box[1]);
  const top = Math.min(y, Number(arrow?.[1] ?? arrow?.[2] ?? y));
  if (index >= 0) {
    items[index] = art.begin.length;
    heights[index] = y + 2;
    shown.index.push(index);
    shown.height.push(y + 2);
  }
  keep_item(begin, end, top, y + Number(box[2]), index);
}

function read_items() {
  let begin = body;
  while (begin >= 0 && begin < source.length && !source.startsWith(\"</svg>\", begin)) {
    const is_event = source.startsWith(\"<g>\", begin);
    const end = is_event ? source.indexOf(\"</g>\\n\", begin) + 4 : source.indexOf(\"\\n\", begin);
    const is_head = source.startsWith('<path class=\"z\"', begin);
    if (is_event) read_event(begin, end);
    else if (!is_head) read_mark(begin, end);
    begin = end + 1;
  }
  for (const [name, column] of Object.entries(art)) art[name] = new Int32Array(column);
}

// The items by their height: level k has those that are lower than SLOT times 2^k, in slots as high, each in the slot of its top.
const SLOT = 256;
const levels = [];

function fill_levels() {
  for (let item = 0; item < art.begin.length; item += 1) {
    const level = Math.max(0, Math.ceil(Math.log2((art.bottom[item] - art.top[item] + 1) / SLOT)));
    while (levels.length <= level) levels.push(new Map());
    const slot = Math.floor(art.top[item] / (SLOT * 2 ** level));
    if (!levels[level].has(slot)) levels[level].set(slot, []);
    levels[level].get(slot).push(item);
  }
}

// The items between two heights, in their order.
function items_within(top, bottom) {
  const found = [];
  levels.forEach((slots, level) => {
    const tall = SLOT * 2 ** level;
    for (let slot = Math.floor(top / tall) - 1; slot <= Math.floor(bottom / tall); slot += 1) {
      for (const item of slots.get(slot) ?? []) if (art.top[item] <= bottom && art.bottom[item] >= top) found.push(item);
    }
  });
  return found.sort((one, other) => one - other);
}

read_items();
fill_levels();

// How far down the events are that crash a node, and those that decide an instance.
const heights_of = (indexes) => indexes.filter(is_shown).map((index) => heights[index]);
const crash_heights = heights_of(shown.index.filter((index) => kinds[table.kind[index]] === \"crash\"));
const decided_heights = heights_of([...decisions.values()]);

function title_of(index) {
  const item = items[index];
  if (item < 0) return \"\";
  const begin = art.begin[item] + \"<g><title>\".length;
  return source.slice(begin, source.indexOf(\"</title>\", begin)).trim();
}

// How the picture is laid out: the size of a unit in pixels, how many units are across, and where the nodes' lines are. Where
// there is less room than the picture wants, the lines stand nearer to each other, and everything beside them keeps its size.
const FIRST = 50;
// Browsers show no element that is much taller than this.
const TALLEST = 16e6;
let zoom = 1;
let layout;

// Lays the picture out, with this height in the middle of what is in sight.
function lay_out(middle) {
  const { clientWidth: room, clientHeight: tall } = at(\"picture\");
  const base = room < 500 ? 1.2 : 1.5;
  zoom = Math.min(zoom, TALLEST / (base * height));
  const unit = base * zoom;
  const width = Math.min(full_width, (room / base) * Math.max(zoom, 1 / zoom));
  const share = width / full_width;
  const right = Math.max(60, (full_width - origins.at(-1)) * share);
  const left = Math.max(64, origins[0] * share);
  const gap = nodes > 1 ? Math.max(14, (width - left - right) / (nodes - 1)) : 0;
  const columns = share === 1 ? origins : origins.map((_, node) => Math.round(left + gap * node));
  layout = { room, tall, unit, width: share === 1 ? full_width : Math.max(width, columns.at(-1) + 20), columns, gap: share === 1 ? 220 : gap };
  draw_names();
  at(\"sheet\").style.width = `${layout.width * unit}px`;
  at(\"sheet\").style.height = `${(height - FIRST) * unit}px`;
  at(\"picture\").scrollTop = (middle - FIRST) * unit - tall / 2;
  drawn = undefined;
  draw_window();
  draw_lanes();
  draw_strip();
}

function draw_names() {
  const { unit, width, columns, gap } = layout;
  const word = gap < 36 && nodes > 1 ? \"\" : \"node \";
  at(\"names\").setAttribute(\"viewBox\", `0 0 ${width} 14`);
  at(\"names\").style.width = `${width * unit}px`;
  at(\"names\").style.height = `${14 * unit}px`;
  at(\"names\").innerHTML = columns.map((x, node) => `<text class=\"h\" x=\"${x}\" y=\"10\">${word}${node}</text>`).join(\"\");
}

// A place from the left, as it is laid out: as far from its node's line as in the picture.
function x_of(x) {
  if (x < 40) return x;
  const step = nodes > 1 ? origins[1] - origins[0] : 1;
  const node = Math.min(nodes - 1, Math.max(0, Math.round((x - origins[0]) / step)));
  return layout.columns[node] + x - origins[node];
}

function laid_out(markup) {
  return markup
    .replace(/( c?x[12]?=\")(\\d+)\"/g, (_, name, x) => `${name}${x_of(Number(x))}\"`)
    .replace(/ d=\"[^\"]*\"/g, (path) => path.replace(/(\\d+) (\\d+)/g, (_, x, y) => `${x_of(Number(x))} ${y}`));
}

// What reaches far out of sight is cut, since a browser takes seconds to draw a dashed line that is as long as a run. Of a line
// and of a bow, where both are at a height; a bow goes down as 3t^2 - 2t^3 does.
const held = (y, low, high) => Math.min(high, Math.max(low, y));
const mix = (one, other, share) => one + (other - one) * share;
const along_line = (y, y1, y2) => (y - y1) / (y2 - y1);
const along_bow = (y, y1, y2) => 0.5 - Math.sin(Math.asin(1 - 2 * held(along_line(y, y1, y2), 0, 1)) / 3);

function cut_line([x1, y1, x2, y2], low, high) {
  const [begin, end] = [held(y1, low, high), held(y2, low, high)];
  const x_at = (y) => mix(x1, x2, along_line(y, y1, y2)).toFixed(2);
  return `x1=\"${x_at(begin)}\" y1=\"${begin}\" x2=\"${x_at(end)}\" y2=\"${end}\"`;
}

// The part of a cubic curve is one: each of its corners is mixed of the whole one's by three shares.
function corner(corners, ...shares) {
  const mixed = (points, share) => points.slice(1).map((point, place) => mix(points[place], point, share));
  return shares.reduce(mixed, corners)[0].toFixed(2);
}

function cut_bow([x, y1, bow, y2], low, high) {
  const [begin, end] = [low, high].map((y) => along_bow(y, y1, y2));
  const at_shares = (...shares) => `${corner([x, bow, bow, x], ...shares)} ${corner([y1, y1, y2, y2], ...shares)}`;
  return `M${at_shares(begin, begin, begin)}C${at_shares(begin, begin, end)} ${at_shares(begin, end, end)} ${at_shares(end, end, end)}`;
}

function cut_out(markup, low, high) {
  const cut = (y) => held(Number(y), low, high);
  return markup
    .replace(/x1=\"(\\d+)\" y1=\"(\\d+)\" x2=\"(\\d+)\" y2=\"(\\d+)\"/, (_, ...ends) => cut_line(ends.slice(0, 4).map(Number), low, high))
    .replace(/M(\\d+) (\\d+)C(\\d+) \\d+ \\d+ (\\d+) \\d+ \\d+/, (_, ...ends) => cut_bow(ends.slice(0, 4).map(Number), low, high))
    .replace(/(M\\d+) (\\d+)V(\\d+)/, (_, begin, y1, y2) => `${begin} ${cut(y1)}V${cut(y2)}`)
    .replace(/ y=\"(\\d+)\"( width=\"\\d+\") height=\"(\\d+)\"/g, (_, y, width, tall) => ` y=\"${cut(y)}\"${width} height=\"${cut(Number(y) + Number(tall)) - cut(y)}\"`);
}

// The heights that are drawn, and an item as it is laid out there.
let drawn;
const REACH = 60;

function shapes_of(item, markup) {
  const [low, high] = [drawn.top - REACH, drawn.bottom + REACH];
  const shapes = laid_out(markup);
  return art.top[item] < low || art.bottom[item] > high ? cut_out(shapes, low, high) : shapes;
}

// What is chosen and found: the event that keys go on from, whether it is marked with what depends on it, and which events match.
let [chosen, is_marked, is_filtered, matches] = [undefined, false, false, []];
const hits = new Uint8Array(total);

function classes_of(index) {
  const classes = hits[index] && is_filtered ? [\"hit\"] : [];
  if (is_marked && index === chosen) classes.push(\"here\");
  else if (is_marked && is_past(index, chosen)) classes.push(\"past\");
  else if (is_marked && is_future(index, chosen)) classes.push(\"future\");
  return classes.join(\" \");
}

function markup_of(item) {
  const markup = source.slice(art.begin[item], art.end[item]);
  const index = art.owner[item];
  if (index < 0) return shapes_of(item, markup);
  if (items[index] !== item) return `<g class=\"${classes_of(index)}\" data-of=\"${table.line[index]}\">${shapes_of(item, markup)}</g>`;
  const name = title_of(index).replaceAll(\"\\n\", \"; \");
  const is_here = is_marked && index === chosen;
  return `<g class=\"${classes_of(index)}\" data-line=\"${table.line[index]}\" role=\"button\" tabindex=\"${is_here ? 0 : -1}\" aria-pressed=\"${is_here}\" aria-label=\"${name}\">${shapes_of(item, markup.slice(3))}`;
}

// The heights that are in sight.
function sight() {
  const { scrollTop, clientHeight } = at(\"picture\");
  const top = FIRST + scrollTop / layout.unit;
  return { top, bottom: top + clientHeight / layout.unit };
}

function set_states() {
  const { gap } = layout;
  const states = { filtered: is_filtered, chosen: is_marked, narrow: gap < 130 && nodes > 1, tight: gap < 60 && nodes > 1 };
  for (const [name, holds] of Object.entries(states)) at(\"scene\").classList.toggle(name, holds);
}

// Makes the elements of what is in sight, and of half as much above and below it. What is drawn stays where it is enough; it tells which.
function draw_window() {
  const { top, bottom } = sight();
  if (drawn && drawn.top <= Math.max(FIRST, top) && drawn.bottom >= Math.min(height, bottom)) return false;
  const margin = (bottom - top) / 2;
  drawn = { top: Math.max(FIRST, Math.floor(top - margin)), bottom: Math.min(height, Math.ceil(bottom + margin)) };
  const { unit, width, columns } = layout;
  const svg = at(\"scene\");
  const had_focus = svg.contains(document.activeElement);
  svg.setAttribute(\"viewBox\", `0 ${drawn.top} ${width} ${drawn.bottom - drawn.top}`);
  Object.assign(svg.style, { top: `${(drawn.top - FIRST) * unit}px`, width: `${width * unit}px`, height: `${(drawn.bottom - drawn.top) * unit}px` });
  const lines = columns.map((x) => `<path class=\"z\" d=\"M${x} ${drawn.top}V${drawn.bottom}\"/>`);
  svg.innerHTML = lines.join(\"\") + items_within(drawn.top, drawn.bottom).map(markup_of).join(\"\\n\");
  set_states();
  if (had_focus) (shape_of(chosen) ?? at(\"picture\")).focus({ preventScroll: true });
  return true;
}

// Gives what is drawn the classes that it has now.
function restyle() {
  set_states();
  for (const shape of at(\"scene\").querySelectorAll(\"g[data-line],g[data-of]\")) {
    const index = place_of(Number(shape.dataset.line ?? shape.dataset.of));
    const classes = classes_of(index);
    if (shape.getAttribute(\"class\") !== classes) shape.setAttribute(\"class\", classes);
    if (shape.dataset.of) continue;
    const is_here = is_marked && index === chosen;
    if (is_here === (shape.tabIndex === 0)) continue;
    shape.setAttribute(\"tabindex\", is_here ? 0 : -1);
    shape.setAttribute(\"aria-pressed\", is_here);
  }
}

function redraw() {
  if (!draw_window()) restyle();
  draw_strip();
}

const shape_of = (index) => index === undefined ? null : at(\"scene\").querySelector(`g[data-line=\"${table.line[index]}\"]`);

// The strip of the whole run has three lanes: decisions, crashes, and what is marked or found. A frame is around what is in sight.
function draw_lane(brush, left, heights, color) {
  const tall = at(\"strip\").height;
  const counts_of = new Map();
  for (const y of heights) {
    const row = Math.floor((y - FIRST) / (height - FIRST) * tall);
    counts_of.set(row, (counts_of.get(row) ?? 0) + 1);
  }
  const most = Math.max(1, ...counts_of.values());
  brush.fillStyle = color;
  for (const [row, count] of counts_of) {
    brush.globalAlpha = 0.35 + 0.65 * count / most;
    brush.fillRect(left, row, 10, tall < heights.length ? 1 : 2);
  }
  brush.globalAlpha = 1;
}

// Of each row of the strip and each node, the ranks of its first and its last event there; and the lanes that no click changes.
let rows;

function draw_lanes() {
  const strip = at(\"strip\");
  [strip.width, strip.height] = [strip.clientWidth, Math.max(1, strip.clientHeight)];
  const brush = strip.getContext(\"2d\", { willReadFrequently: true });
  draw_lane(brush, 2, decided_heights, color_of(\"--dec\"));
  draw_lane(brush, 14, crash_heights, color_of(\"--bad\"));
  const cells = strip.height * nodes;
  rows = { first: new Int32Array(cells).fill(total), last: new Int32Array(cells).fill(-1), lanes: brush.getImageData(0, 0, strip.width, strip.height) };
  for (const index of shown.index) {
    const cell = Math.floor((heights[index] - FIRST) / (height - FIRST) * strip.height) * nodes + table.node[index];
    rows.first[cell] = Math.min(rows.first[cell], rank[index]);
    rows.last[cell] = Math.max(rows.last[cell], rank[index]);
  }
}

const color_of = (name) => getComputedStyle(at(\"legend\")).getPropertyValue(name).trim();

// What the chosen event depends on, and what depends on it.
function draw_marked(brush) {
  for (const [color, holds] of [
    [color_of(\"--past\"), (cell, node) => rows.first[cell] < before[chosen * nodes + node]],
    [color_of(\"--future\"), (cell, node) => rows.last[cell] >= after[chosen * nodes + node]],
  ]) {
    brush.fillStyle = color;
    for (let cell = 0; cell < rows.first.length; cell += 1) if (holds(cell, cell % nodes)) brush.fillRect(26, Math.floor(cell / nodes), 10, 1);
  }
}

function draw_strip() {
  const strip = at(\"strip\");
  const brush = strip.getContext(\"2d\", { willReadFrequently: true });
  brush.putImageData(rows.lanes, 0, 0);
  if (is_marked) draw_marked(brush);
  else if (is_filtered) draw_lane(brush, 26, heights_of(matches), color_of(\"--link\"));
  strip.lanes = brush.getImageData(0, 0, strip.width, strip.height);
  draw_frame();
}

// The frame around what is in sight, and the height of the chosen event.
function draw_frame() {
  const strip = at(\"strip\");
  const brush = strip.getContext(\"2d\", { willReadFrequently: true });
  const row = (y) => (y - FIRST) / (height - FIRST) * strip.height;
  const { top, bottom } = sight();
  brush.putImageData(strip.lanes, 0, 0);
  brush.fillStyle = brush.strokeStyle = getComputedStyle(document.body).color;
  brush.globalAlpha = 0.12;
  brush.fillRect(0, row(top), strip.width, Math.max(3, row(bottom) - row(top)));
  brush.globalAlpha = 1;
  brush.strokeRect(0.5, row(top), strip.width - 1, Math.max(3, row(bottom) - row(top)));
  if (is_marked && is_shown(chosen)) brush.fillRect(0, row(heights[chosen]), strip.width, 2);
}

// Goes to where the pointer is on the strip.
function follow_strip(pointer) {
  const strip = at(\"strip\");
  const share = (pointer.clientY - strip.getBoundingClientRect().top) / strip.clientHeight;
  at(\"picture\").scrollTop = share * (height - FIRST) * layout.unit - at(\"picture\").clientHeight / 2;
}

// The legend is the picture's, in pieces that can go to the next line.
function make_legend() {
  const lines = [...front.matchAll(/^<text x=\"\\d+\" y=\"\\d+\">.*$/gm)].map(([line]) => line);
  const marks = (line) => [...line.matchAll(/<text[^>]*>([^<]*)<\\/text><use href=\"(#\\w)\"[^>]*>/g)]
    .map(([, word, mark]) => `<span><svg viewBox=\"-9 -6 18 12\" width=\"18\" height=\"12\"><use href=\"${mark}\"/></svg>${word}</span>`);
  const words = (line) => line.replace(/<\\/?text[^>]*>/g, \"\").split(/, (?=<tspan)|; /)
    .map((piece) => `<span>${piece.replaceAll(\"tspan\", \"span\")}</span>`);
  at(\"legend\").innerHTML += lines.flatMap((line) => line.includes(\"<use\") ? marks(line) : words(line)).join(\"\");
}

// The picture's style and the marks that it defines.
function take_front() {
  const style = document.createElement(\"style\");
  style.textContent = /<style>([^]*?)<\\/style>/.exec(front)[1].replaceAll(\"svg{--ink\", \"svg,#legend{--ink\");
  document.head.prepend(style);
  const marks = document.createElementNS(\"http://www.w3.org/2000/svg\", \"svg\");
  marks.setAttribute(\"style\", \"position:absolute;width:0;height:0\");
  marks.innerHTML = /<defs>[^]*?<\\/defs>/.exec(front)[0];
  document.body.prepend(marks);
}

// Text in an element of this name, with elements behind it.
function element(name, text, ...inside) {
  const made = document.createElement(name);
  made.textContent = text;
  made.append(...inside);
  return made;
}

function link(index, text = `line ${table.line[index]}: ${told_of(index).text}`) {
  const made = element(\"a\", text);
  made.href = `#line=${table.line[index]}`;
  return made;
}

function list(indexes) {
  const shown = indexes.slice(0, 8).map((index) => element(\"li\", \"\", link(index)));
  if (indexes.length > 8) shown.push(element(\"li\", `and ${indexes.length - 8} more`));
  return element(\"ul\", \"\", ...shown);
}

// The title of an event as a reader sees it.
const title_text = (index) => title_of(index).replaceAll(\"&quot;\", '\"').replaceAll(\"&lt;\", \"<\").replaceAll(\"&gt;\", \">\").replaceAll(\"&amp;\", \"&\");

function describe(index) {
  const { event, ...told } = object_of(index);
  const sent = sending[index];
  const [past, future] = sizes(index);
  const parts = [element(\"h2\", `Line ${event.line}`), element(\"pre\", event.text)];
  if (event.note) parts.push(element(\"p\", event.note));
  if (told.decides !== undefined) parts.push(element(\"p\", `It decides instance ${told.decides}.`));
  const lines = title_text(index).split(\"\\n\").slice(1).join(\"\\n\");
  if (lines) parts.push(element(\"pre\", lines));
  if (told.kind !== \"done\" && told.kind !== \"idle\") parts.push(element(\"pre\", JSON.stringify(told, null, 1)));
  if (sent >= 0) parts.push(element(\"pre\", JSON.stringify(object_of(sent).message, null, 1)));
  const causes_words = element(\"h2\", `It depends on ${past} events, directly on`);
  causes_words.className = \"past-word\";
  const effects_words = element(\"h2\", `${future} events depend on it, directly`);
  effects_words.className = \"future-word\";
  parts.push(causes_words, list(causes(index)), effects_words, list(effects(index)));
  at(\"event\").replaceChildren(...parts);
}

// Scrolls to an event, if the picture has it and it isn't well in sight.
function show(index) {
  const y = heights[index];
  const { top, bottom } = sight();
  if (is_shown(index) && (y < top + 10 || y > bottom - 20)) at(\"picture\").scrollTop = (y - FIRST - (bottom - top) / 2) * layout.unit;
}

function choose(index, focus = true) {
  chosen = index;
  is_marked = true;
  show(index);
  redraw();
  describe(index);
  if (focus) shape_of(index)?.focus({ preventScroll: true });
  const address = `#line=${table.line[index]}`;
  if (location.hash !== address) history.replaceState(null, \"\", address);
}

// Whether the words of an event, or what is told of it, have what is searched for. The data's spelling is looked at first.
function is_told(index, { words, in_data, in_picture }) {
  if (spoken.request[index].includes(words) || spoken.name[index].includes(words) || title_of(index).includes(in_picture)) return true;
  if (!data.slice(table.told[index], table.end[index]).includes(in_data)) return false;
  const { text, note } = told_of(index);
  return text.includes(words) || (note ?? \"\").includes(words);
}

// Whether an event has what is searched for, and passes the filters.
function is_match(index, wanted) {
  const { words, field, node, kind, instance } = wanted;
  if (node !== \"\" && String(table.node[index]) !== node) return false;
  if (kind !== \"\" && kinds[table.kind[index]] !== kind) return false;
  if (instance !== \"\" && spoken.instance[index] !== instance) return false;
  if (words === \"\") return true;
  return field === \"any\" ? is_told(index, wanted) : spoken[field][index] === words;
}

// How words are spelled in the picture, and in the data.
const spelled_in_picture = (text) => text.replaceAll(\"&\", \"&amp;\").replaceAll(\"<\", \"&lt;\").replaceAll(\">\", \"&gt;\").replaceAll('\"', \"&quot;\");
const spelled_in_data = (text) => JSON.stringify(text).slice(1, -1).replaceAll(\"<\", \"\\\\u003c\");

function filter() {
  const wanted = Object.fromEntries([...FIELDS, \"field\"].map((id) => [id, at(id).value.trim()]));
  Object.assign(wanted, { in_data: spelled_in_data(wanted.words), in_picture: spelled_in_picture(wanted.words) });
  is_filtered = FIELDS.some((id) => wanted[id] !== \"\");
  if (!spoken && (wanted.words !== \"\" || wanted.instance !== \"\")) find_spoken();
  matches = [];
  for (let index = 0; index < total; index += 1) {
    hits[index] = is_match(index, wanted) ? 1 : 0;
    if (hits[index]) matches.push(index);
  }
  is_marked = false;
  at(\"count\").textContent = is_filtered ? `${matches.length} of ${total} events` : `${total} events`;
  redraw();
}

// Goes to the next match behind the chosen event, or to the one before it; behind the last comes the first.
function go(step, focus = true) {
  const here = chosen ?? (step > 0 ? -1 : total);
  const next = step > 0 ? matches[first_from(matches, here + 1)] ?? matches[0] : matches[first_from(matches, here) - 1] ?? matches.at(-1);
  if (next !== undefined) choose(next, focus);
}

// Shows all events alike. Keys go on from the one that was chosen.
function clear() {
  for (const id of FIELDS) at(id).value = \"\";
  filter();
}

const middle_in_sight = () => FIRST + (at(\"picture\").scrollTop + layout.tall / 2) / layout.unit;

// Makes the picture larger or smaller, or fits it.
function scale(factor) {
  zoom = factor === 0 ? 1 : Math.min(8, Math.max(0.1, zoom * factor));
  lay_out(middle_in_sight());
}

function follow_size() {
  const { clientWidth, clientHeight } = at(\"picture\");
  if (clientWidth !== layout.room || clientHeight !== layout.tall) lay_out(middle_in_sight());
}

function follow_address() {
  const found = /^#line=(\\d+)$/.exec(location.hash);
  const index = found ? place_of(Number(found[1])) : undefined;
  if (index !== undefined) choose(index);
}

// The decided commands, each with the event that decided it where that is known. Many are shown when they are asked for.
const commands = others.filter((object) => object.kind === \"command\");
const MANY = 200;

function command_item({ place: instance, command }) {
  const { client, request, operation, name, value, owner } = command;
  const words = [`${client}.${request}`, operation, name, value ?? owner ?? \"\"].join(\" \").trim();
  const index = decisions.get(instance);
  return index === undefined ? element(\"li\", words) : element(\"li\", \"\", link(index, words));
}

function show_commands(from) {
  const shown = document.querySelector(\"#decided ol\");
  shown.append(...commands.slice(from, from + MANY).map(command_item));
  at(\"more\")?.remove();
  if (commands.length <= from + MANY) return;
  const more = element(\"button\", `${commands.length - from - MANY} more`);
  more.id = \"more\";
  more.addEventListener(\"click\", () => show_commands(from + MANY));
  at(\"decided\").append(more);
}

function fill_choices() {
  for (let node = 0; node < nodes; node += 1) at(\"node\").append(new Option(String(node), String(node)));
  for (const kind of kinds) at(\"kind\").append(new Option(kind, kind));
  show_commands(0);
  if (commands.length === 0) at(\"decided\").append(element(\"p\", \"none\"));
  at(\"scene\").setAttribute(\"aria-label\", `${total} events`);
}

const actions = {
  ArrowDown: () => choose(Math.min(total - 1, (chosen ?? -1) + 1)),
  ArrowUp: () => choose(Math.max(0, (chosen ?? total) - 1)),
  n: () => go(1),
  p: () => go(-1),
  \"/\": () => at(\"words\").focus(),
  \"+\": () => scale(1.25),
  \"-\": () => scale(0.8),
  0: () => scale(0),
};

function follow_key(key) {
  if (key.ctrlKey || key.metaKey || key.altKey) return;
  const is_typing = /^(INPUT|SELECT)$/.test(document.activeElement?.tagName);
  if (key.key === \"Escape\") {
    clear();
    at(\"picture\").focus();
  } else if (!is_typing && actions[key.key] && total > 0) {
    key.preventDefault();
    actions[key.key]();
  }
}

function follow_wheel(wheel) {
  if (!wheel.ctrlKey) return;
  wheel.preventDefault();
  scale(wheel.deltaY < 0 ? 1.1 : 1 / 1.1);
}

function listen() {
  at(\"scene\").addEventListener(\"click\", (click) => {
    const shape = click.target.closest(\"g[data-line],g[data-of]\");
    if (shape) choose(place_of(Number(shape.dataset.line ?? shape.dataset.of)));
  });
  for (const id of [...FIELDS, \"field\"]) at(id).addEventListener(\"input\", filter);
  at(\"find\").addEventListener(\"submit\", (submitted) => {
    submitted.preventDefault();
    go(1, false);
  });
  at(\"before\").addEventListener(\"click\", () => go(-1, false));
  at(\"clear\").addEventListener(\"click\", clear);
  for (const [id, key] of [[\"in\", \"+\"], [\"out\", \"-\"], [\"whole\", 0]]) at(id).addEventListener(\"click\", actions[key]);
  at(\"picture\").addEventListener(\"wheel\", follow_wheel, { passive: false });
  at(\"picture\").addEventListener(\"scroll\", () => {
    draw_window();
    draw_frame();
  });
  at(\"strip\").addEventListener(\"pointerdown\", (pointer) => {
    at(\"strip\").setPointerCapture(pointer.pointerId);
    follow_strip(pointer);
  });
  at(\"strip\").addEventListener(\"pointermove\", (pointer) => pointer.buttons > 0 && follow_strip(pointer));
  window.addEventListener(\"hashchange\", follow_address);
  document.addEventListener(\"keydown\", follow_key);
}

take_front();
make_legend();
fill_choices();
lay_out(FIRST);
filter();
listen();
new ResizeObserver(follow_size).observe(at(\"picture\"));
follow_address();
";
